// The IPv6 calls: each as the IPv4 call of its name, on a table of sixteen levels.
// kept: C names the calls of each family, so each name is a function here; below them one function serves both.
ghost use Rattle.std.specs.Prelude.{◌≡◌};
ghost use Rattle.numbers.specs.Number.{number as number_of};
ghost use Rattle.routes.specs.Family.{v6};
ghost use Rattle.candidates.specs.Answers.{announce as announced, withdraw as withdrawn};
ghost use Rattle.candidates.specs.Seen.{lookup_on, check_on};
ghost use Rattle.words.specs.Table.{seen};
ghost use Rattle.lookup.specs.Walk.{walk};
ghost use Rattle.inside.specs.Seen.{within_on};
ghost use Rattle.within.specs.Walk.{walk as totalWalk};
ghost use Rattle.answers.specs.Numbers.{counted, looked, totalled};
ghost use Rattle.toggleash.specs.Face.{HasCleared, HasUpdated, HasWritten, HasRun};

use answers::{Counted, Found, Ran, Total, Updated, Written, finding, number};
use families::Family;

// An address by value, in network order: level k reads byte k.
#[repr(C)]
#[derive(Clone, Copy, Debug, PartialEq, Eq)]
pub struct Ipv6 {
    pub bytes: [u8; 16],
}

// The levels of a table.
const LEVELS: u32 = 16;

pub fn toggleash_v6_clear(words: &mut [u32]) -> u32
    ensures { HasCleared v6 words.old words.new result }
{
    number(audit::clear_any(words))
}

pub fn toggleash_v6_check(words: &[u32]) -> Counted
    ensures { result ≡ counted (check_on 128 (seen 16 words.now)) }
{
    audit::check_of(words, LEVELS).into()
}

pub fn toggleash_v6_lookup(words: &[u32], address: Ipv6) -> Found
    ensures { result ≡ looked (lookup_on 128 (seen 16 words.now)
        (walk 16 words.now (number_of address.bytes)) (number_of address.bytes)) }
{
    finding(lookup::walk_of(words, address.bytes))
}

pub fn toggleash_v6_within(words: &[u32], address: Ipv6, length: u32) -> Total
    ensures { result ≡ totalled (within_on 128 (seen 16 words.now)
        (totalWalk 16 words.now (number_of address.bytes) length) (number_of address.bytes) length) }
{
    within::within(words, address.bytes, length).into()
}

pub fn toggleash_v6_announce(
    words: &mut [u32],
    address: Ipv6,
    length: u32,
    hop: u32,
    feed: u32,
    preference: u8,
) -> Updated
    ensures { HasUpdated v6 words.old words.new
        (announced (number_of address.bytes) length hop feed preference) result }
{
    update::announce(words, address.bytes, length, hop, feed, preference).into()
}

pub fn toggleash_v6_withdraw(words: &mut [u32], address: Ipv6, length: u32, feed: u32) -> Updated
    ensures { HasUpdated v6 words.old words.new
        (withdrawn (number_of address.bytes) length feed) result }
{
    update::withdraw(words, address.bytes, length, feed).into()
}

pub fn toggleash_v6_write_out(words: &[u32], buffer: &mut [u8]) -> Written
    ensures { HasWritten v6 words.now buffer.old buffer.new result }
{
    writing::fill_of(words, Family::V6, buffer).into()
}

pub fn toggleash_v6_run(words: &mut [u32], feed: &[u8], reply: &mut [u8]) -> Ran
    ensures { HasRun v6 words.old feed.now reply.old words.new reply.new result }
{
    feed::run_of(words, Family::V6, feed, reply).into()
}
