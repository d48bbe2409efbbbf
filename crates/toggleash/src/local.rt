// The calls that test what they touch, and no more, of both families: on a table as the calls of their names without `local`, on
// any other words safe too.
// kept: C names the calls of each family and these beside the checked ones, so each name is a function here.
ghost use Rattle.numbers.specs.Number.{number as number_of};
ghost use Rattle.routes.specs.Family.{v4, v6};
ghost use Rattle.candidates.specs.Answers.{announce as announced, withdraw as withdrawn};
ghost use Rattle.toggleash.specs.Local.{HasUpdatedLocally, HasRunLocally};

use super::six::Ipv6;
use answers::{Ran, Updated};
use families::Family;

// ---- IPv4

pub fn toggleash_announce_local(
    words: &mut [u32],
    address: u32,
    length: u32,
    hop: u32,
    feed: u32,
    preference: u8,
) -> Updated
    ensures { HasUpdatedLocally v4 words.old words.new
        (announced address length hop feed preference) result }
{
    update::announce_local(words, address, length, hop, feed, preference).into()
}

pub fn toggleash_withdraw_local(words: &mut [u32], address: u32, length: u32, feed: u32) -> Updated
    ensures { HasUpdatedLocally v4 words.old words.new (withdrawn address length feed) result }
{
    update::withdraw_local(words, address, length, feed).into()
}

pub fn toggleash_run_local(words: &mut [u32], feed: &[u8], reply: &mut [u8]) -> Ran
    ensures { HasRunLocally v4 words.old feed.now reply.old
        words.new reply.new result }
{
    feed::run_local_of(words, Family::V4, feed, reply).into()
}

// ---- IPv6

pub fn toggleash_v6_announce_local(
    words: &mut [u32],
    address: Ipv6,
    length: u32,
    hop: u32,
    feed: u32,
    preference: u8,
) -> Updated
    ensures { HasUpdatedLocally v6 words.old words.new
        (announced (number_of address.bytes) length hop feed preference) result }
{
    update::announce_local(words, address.bytes, length, hop, feed, preference).into()
}

pub fn toggleash_v6_withdraw_local(
    words: &mut [u32],
    address: Ipv6,
    length: u32,
    feed: u32,
) -> Updated
    ensures { HasUpdatedLocally v6 words.old words.new
        (withdrawn (number_of address.bytes) length feed) result }
{
    update::withdraw_local(words, address.bytes, length, feed).into()
}

pub fn toggleash_v6_run_local(words: &mut [u32], feed: &[u8], reply: &mut [u8]) -> Ran
    ensures { HasRunLocally v6 words.old feed.now reply.old
        words.new reply.new result }
{
    feed::run_local_of(words, Family::V6, feed, reply).into()
}
