// The calls of bindings/c/toggleash_damp.h, a front before a table: each call with plain numbers, the front's words before the
// table's, under the name by which `damper_c` exports it. No call asks anything of its caller, since nothing would check it.
#![tactic(auto)]

ghost use Rattle.std.specs.Prelude.{◌≡◌};
ghost use Rattle.candidates.specs.Answers.{announce as announced, withdraw as withdrawn};
ghost use Rattle.front.specs.Seen.{check_front};
ghost use Rattle.damping.specs.View.{seen_front};
ghost use Rattle.damping.specs.Held.{check_answer, HasCleared};
ghost use Rattle.damper.specs.Face.{held, HasUpdated, HasTicked, HasRun};
ghost use Rattle.damper.specs.Face.{HasUpdatedLocally, HasTickedLocally, HasRunLocally};

use answers::{Ran, Updated};
use damping::held::Held;
use refusals::Refusal;

// The numbers of places and of candidates held back.
#[repr(C)]
#[derive(Clone, Copy, Debug, Default, PartialEq, Eq)]
pub struct Front {
    pub refusal: u32,
    pub places: u32,
    pub held_back: u32,
}

// In plain numbers: the refusal's number, or 0 and the values.
impl From<Result<Held, Refusal>> for Front {
    ghost from_gives = { λ answer r. r ≡ held (check_answer answer) };

    fn from(answer: Result<Held, Refusal>) -> Front {
        match answer {
            Ok(Held { places, back }) => Front {
                refusal: 0,
                places,
                held_back: back,
            },
            Err(why) => Front {
                refusal: why.number(),
                ..Front::default()
            },
        }
    }
}

// ---- the calls of bindings/c/toggleash_damp.h

// The version of the table's words and of these calls, in the name: that of `toggleash`.
pub fn toggleash_damp_version_6() -> u32
    ensures { result ≡ 6 }
{
    6
}

pub fn toggleash_damp_clear(front: &mut [u32]) -> u32
    ensures { HasCleared front.old front.new result }
{
    answers::number(damping::held::clear(front))
}

pub fn toggleash_damp_check(front: &[u32]) -> Front
    ensures { result ≡ held (check_front (seen_front front.now)) }
{
    Front::from(damping::held::check(front))
}

pub fn toggleash_damp_announce(
    front: &mut [u32],
    words: &mut [u32],
    address: u32,
    length: u32,
    hop: u32,
    feed: u32,
    preference: u8,
) -> Updated
    ensures { HasUpdated front.old words.old front.new words.new
        (announced address length hop feed preference) result }
{
    Updated::from(damping::announce(front, words, address, length, hop, feed, preference))
}

pub fn toggleash_damp_withdraw(
    front: &mut [u32],
    words: &mut [u32],
    address: u32,
    length: u32,
    feed: u32,
) -> Updated
    ensures { HasUpdated front.old words.old front.new words.new
        (withdrawn address length feed) result }
{
    Updated::from(damping::withdraw(front, words, address, length, feed))
}

pub fn toggleash_damp_tick(front: &mut [u32], words: &mut [u32]) -> Front
    ensures { HasTicked front.old words.old front.new words.new result }
{
    Front::from(damping::tick::tick(front, words))
}

pub fn toggleash_damp_run(
    front: &mut [u32],
    words: &mut [u32],
    feed: &[u8],
    reply: &mut [u8],
) -> Ran
    ensures { HasRun front.old words.old feed.now reply.old
        front.new words.new reply.new result }
{
    Ran::from(damping_run::run(front, words, feed, reply))
}

// ---- the same, testing the front and of the table what they touch
// kept: C names them beside the checked calls, and they promise another thing of words that are no table.

pub fn toggleash_damp_announce_local(
    front: &mut [u32],
    words: &mut [u32],
    address: u32,
    length: u32,
    hop: u32,
    feed: u32,
    preference: u8,
) -> Updated
    ensures { HasUpdatedLocally front.old words.old front.new words.new
        (announced address length hop feed preference) result }
{
    Updated::from(damping::announce_local(front, words, address, length, hop, feed, preference))
}

pub fn toggleash_damp_withdraw_local(
    front: &mut [u32],
    words: &mut [u32],
    address: u32,
    length: u32,
    feed: u32,
) -> Updated
    ensures { HasUpdatedLocally front.old words.old front.new words.new
        (withdrawn address length feed) result }
{
    Updated::from(damping::withdraw_local(front, words, address, length, feed))
}

pub fn toggleash_damp_tick_local(front: &mut [u32], words: &mut [u32]) -> Front
    ensures { HasTickedLocally front.old words.old front.new words.new result }
{
    Front::from(damping::tick::tick_local(front, words))
}

pub fn toggleash_damp_run_local(
    front: &mut [u32],
    words: &mut [u32],
    feed: &[u8],
    reply: &mut [u8],
) -> Ran
    ensures { HasRunLocally front.old words.old feed.now reply.old
        front.new words.new reply.new result }
{
    Ran::from(damping_run::run_local(front, words, feed, reply))
}
