// The calls of bindings/c/toggleash.h: each call of the library with plain numbers, under the name by which `toggleash_c` exports
// it. No call asks anything of its caller, since nothing would check it.
#![tactic(auto)]

pub mod copies; // the copy's calls
pub mod local; // the calls that test what they touch, and no more
pub mod six; // the IPv6 calls

ghost use Rattle.std.specs.Prelude.{◌≡◌, length};
ghost use Rattle.routes.specs.Family.{v4};
ghost use Rattle.candidates.specs.Answers.{announce as announced, withdraw as withdrawn};
ghost use Rattle.candidates.specs.Seen.{lookup_on, check_on};
ghost use Rattle.words.specs.Table.{seen};
ghost use Rattle.lookup.specs.Walk.{walk};
ghost use Rattle.inside.specs.Seen.{within_on};
ghost use Rattle.within.specs.Walk.{walk as totalWalk};
ghost use Rattle.answers.specs.Numbers.{counted, looked, totalled};
ghost use Rattle.toggleash.specs.Face.{HasCleared, HasUpdated, HasWritten, HasRun};

use answers::{Counted, Found, Ran, Total, Updated, Written, finding, number};

// ---- the calls

// The version is in the name, so that a caller made for another one does not link (bindings/c/toggleash.h). It rises with any
// change that such a caller would not notice: of a call, of its answer, or of what words are a table or a copy.
pub fn toggleash_version_6() -> u32
    ensures { result ≡ 6 }
{
    6
}

pub fn toggleash_clear(words: &mut [u32]) -> u32
    ensures { HasCleared v4 words.old words.new result }
{
    number(audit::clear(words))
}

pub fn toggleash_check(words: &[u32]) -> Counted
    ensures { result ≡ counted (check_on 32 (seen 4 words.now)) }
{
    audit::check(words).into()
}

pub fn toggleash_lookup(words: &[u32], address: u32) -> Found
    ensures { result ≡ looked (lookup_on 32 (seen 4 words.now) (walk 4 words.now address) address) }
{
    finding(lookup::walk_of(words, address))
}

pub fn toggleash_within(words: &[u32], address: u32, length: u32) -> Total
    ensures { result ≡ totalled (within_on 32 (seen 4 words.now)
        (totalWalk 4 words.now address length) address length) }
{
    within::within(words, address, length).into()
}

pub fn toggleash_announce(
    words: &mut [u32],
    address: u32,
    length: u32,
    hop: u32,
    feed: u32,
    preference: u8,
) -> Updated
    ensures { HasUpdated v4 words.old words.new (announced address length hop feed preference) result }
{
    update::announce(words, address, length, hop, feed, preference).into()
}

pub fn toggleash_withdraw(words: &mut [u32], address: u32, length: u32, feed: u32) -> Updated
    ensures { HasUpdated v4 words.old words.new (withdrawn address length feed) result }
{
    update::withdraw(words, address, length, feed).into()
}

pub fn toggleash_write_out(words: &[u32], buffer: &mut [u8]) -> Written
    ensures { HasWritten v4 words.now buffer.old buffer.new result }
{
    writing::fill(words, buffer).into()
}

pub fn toggleash_run(words: &mut [u32], feed: &[u8], reply: &mut [u8]) -> Ran
    ensures { HasRun v4 words.old feed.now reply.old words.new reply.new result }
{
    feed::run(words, feed, reply).into()
}
