// The C calls of bindings/c/toggleash_damp.h: each is the function of its name in `damper`, exported, with the same clauses, the
// front's words before the table's. A slice passes as a pointer and a length. No call asks anything of its caller, since nothing
// would check it.
#![tactic(auto)]

ghost use Rattle.std.specs.Prelude.{◌≡◌};
ghost use Rattle.candidates.specs.Answers.{announce as announced, withdraw as withdrawn};
ghost use Rattle.front.specs.Seen.{check_front};
ghost use Rattle.damping.specs.View.{seen_front};
ghost use Rattle.damping.specs.Held.{HasCleared};
ghost use Rattle.damper.specs.Face.{held, HasUpdated, HasTicked, HasRun};
ghost use Rattle.damper.specs.Face.{HasUpdatedLocally, HasTickedLocally, HasRunLocally};

use answers::{Ran, Updated};
use damper::Front;

// The version is in the name, so that a caller made for another one does not link.
#[unsafe(no_mangle)]
pub extern "C" fn toggleash_damp_version_6() -> u32
    ensures { result ≡ 6 }
{
    damper::toggleash_damp_version_6()
}

#[unsafe(no_mangle)]
pub extern "C" fn toggleash_damp_clear(front: &mut [u32]) -> u32
    ensures { HasCleared front.old front.new result }
{
    damper::toggleash_damp_clear(front)
}

#[unsafe(no_mangle)]
pub extern "C" fn toggleash_damp_check(front: &[u32]) -> Front
    ensures { result ≡ held (check_front (seen_front front.now)) }
{
    damper::toggleash_damp_check(front)
}

#[unsafe(no_mangle)]
pub extern "C" fn toggleash_damp_announce(
    front: &mut [u32],
    words: &mut [u32],
    address: u32,
    length: u32,
    hop: u32,
    feed: u32,
    preference: u8,
) -> Updated
    ensures { HasUpdated front.old words.old front.new words.new
        (announced address length hop feed preference) result }
{
    damper::toggleash_damp_announce(front, words, address, length, hop, feed, preference)
}

#[unsafe(no_mangle)]
pub extern "C" fn toggleash_damp_withdraw(
    front: &mut [u32],
    words: &mut [u32],
    address: u32,
    length: u32,
    feed: u32,
) -> Updated
    ensures { HasUpdated front.old words.old front.new words.new
        (withdrawn address length feed) result }
{
    damper::toggleash_damp_withdraw(front, words, address, length, feed)
}

#[unsafe(no_mangle)]
pub extern "C" fn toggleash_damp_tick(front: &mut [u32], words: &mut [u32]) -> Front
    ensures { HasTicked front.old words.old front.new words.new result }
{
    damper::toggleash_damp_tick(front, words)
}

#[unsafe(no_mangle)]
pub extern "C" fn toggleash_damp_run(
    front: &mut [u32],
    words: &mut [u32],
    feed: &[u8],
    reply: &mut [u8],
) -> Ran
    ensures { HasRun front.old words.old feed.now reply.old
        front.new words.new reply.new result }
{
    damper::toggleash_damp_run(front, words, feed, reply)
}

// ---- the same, testing the front and of the table what they touch

#[unsafe(no_mangle)]
pub extern "C" fn toggleash_damp_announce_local(
    front: &mut [u32],
    words: &mut [u32],
    address: u32,
    length: u32,
    hop: u32,
    feed: u32,
    preference: u8,
) -> Updated
    ensures { HasUpdatedLocally front.old words.old front.new words.new
        (announced address length hop feed preference) result }
{
    damper::toggleash_damp_announce_local(front, words, address, length, hop, feed, preference)
}

#[unsafe(no_mangle)]
pub extern "C" fn toggleash_damp_withdraw_local(
    front: &mut [u32],
    words: &mut [u32],
    address: u32,
    length: u32,
    feed: u32,
) -> Updated
    ensures { HasUpdatedLocally front.old words.old front.new words.new
        (withdrawn address length feed) result }
{
    damper::toggleash_damp_withdraw_local(front, words, address, length, feed)
}

#[unsafe(no_mangle)]
pub extern "C" fn toggleash_damp_tick_local(front: &mut [u32], words: &mut [u32]) -> Front
    ensures { HasTickedLocally front.old words.old front.new words.new result }
{
    damper::toggleash_damp_tick_local(front, words)
}

#[unsafe(no_mangle)]
pub extern "C" fn toggleash_damp_run_local(
    front: &mut [u32],
    words: &mut [u32],
    feed: &[u8],
    reply: &mut [u8],
) -> Ran
    ensures { HasRunLocally front.old words.old feed.now reply.old
        front.new words.new reply.new result }
{
    damper::toggleash_damp_run_local(front, words, feed, reply)
}
