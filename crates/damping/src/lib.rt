// Updates through a front before a table: a candidate that is held back is kept and dropped in the front, any other goes to the
// table, and an accepted withdrawal is charged. Each is there for callers who lend any words: one that tests both memories whole,
// and a local one that tests the front, and of the table what it touches.
#![tactic(auto)]

pub mod held; // a front checked and cleared
pub mod tick; // a tick of both

ghost use Rattle.std.specs.Prelude.{◌≡◌, true};
ghost use Rattle.candidates.specs.Answers.{announce as announced, withdraw as withdrawn};
ghost use Rattle.words.specs.TableBut.{Table};
ghost use Rattle.refusals.specs.Number.{fault};
ghost use Rattle.update.specs.Fault.{fault_of};
ghost use Rattle.update.specs.Locally.{HasUpdatedLocally};
ghost use Rattle.damping.specs.Code.{update_of};
ghost use Rattle.damping.specs.Work.{Damped, Damps};
ghost use Rattle.damping.specs.Update.{HasDamped};
ghost use Rattle.damping.specs.Refuse.{front_number, refusal_through};
ghost use Rattle.damping.specs.Locally.{Ready, refusal_before, HasDampedLocally};

use address::Address;
use charge::Candidate;
use refusals::Refusal;
use replies::{Reply, is_done};

// What is asked for of a candidate.
#[derive(Clone, Copy, Debug, PartialEq, Eq)]
pub(crate) enum Update {
    Announce { hop: u32, preference: u8 },
    Withdraw,
}

// ---- the table's own calls, by the bytes of an address

fn own_fault(candidate: Candidate, update: Update) -> Result<(), Refusal>
    ensures { fault result ≡ fault_of 32 (update_of candidate update) }
{
    let bytes = candidate.address.bytes();
    match update {
        Update::Announce { hop, .. } => {
            update::announce_fault(&bytes, candidate.length, hop, candidate.feed)
        }
        Update::Withdraw => update::withdraw_fault(&bytes, candidate.length, candidate.feed),
    }
}

pub(crate) fn pass_on(words: &mut [u32], candidate: Candidate, update: Update, known: bool) -> Reply
    requires { (known ≡ true) → Table 4 words.old }
    ensures { HasUpdatedLocally 4 words.old words.new (update_of candidate update) result }
{
    let Candidate {
        address,
        length,
        feed,
    } = candidate;
    let bytes = address.bytes();
    match update {
        Update::Announce { hop, preference } => {
            update::announce_with(words, &bytes, length, hop, feed, preference, known)
        }
        Update::Withdraw => update::withdraw_with(words, &bytes, length, feed, known),
    }
}

// ---- the work, on a front and any words of a right size; a caller who knows these to be a table spares their tests

fn update_in(
    front: &mut [u32],
    words: &mut [u32],
    candidate: Candidate,
    update: Update,
    known: bool,
) -> Reply
    requires { Damps front.old words.old (update_of candidate update) known }
    ensures { Damped front.old words.old front.new words.new (update_of candidate update) result }
{
    let spot = charge::find(front, candidate);
    match (spot.held_back(), update) {
        (Some(_), Update::Announce { hop, preference }) => {
            charge::keep(front, spot, candidate, hop, preference as u32);
            Reply::Done(hop, 0)
        }
        (Some(0), Update::Withdraw) => Reply::Refused(Refusal::Absent.number()),
        (Some(kept), Update::Withdraw) => {
            charge::charge(front, spot, candidate);
            Reply::Done(kept % 65536, 0)
        }
        (None, Update::Announce { .. }) => pass_on(words, candidate, update, known),
        (None, Update::Withdraw) => {
            let r = pass_on(words, candidate, update, known);
            if is_done(r) {
                charge::charge(front, spot, candidate);
            }
            r
        }
    }
}

// The fault of words that are no front.
fn front_fault(front: &[u32]) -> Result<(), Refusal>
    ensures { fault result ≡ front_number front.now }
{
    if rows::is_front(front) {
        return Ok(());
    }
    Err(Refusal::Foreign)
}

fn front_fault_number(front: &[u32]) -> u32
    ensures { result ≡ front_number front.now }
{
    match front_fault(front) {
        Ok(()) => 0,
        Err(why) => why.number(),
    }
}

// kept: one work after three tests, in three calls, since each has a promise of its own: `HasDamped`, `HasDampedLocally`, `Ready`
// ---- updates by callers who know the front to be one, and the size of the table's words to be right: a run has tested both

fn update_with(
    front: &mut [u32],
    words: &mut [u32],
    candidate: Candidate,
    update: Update,
    known: bool,
) -> Reply
    requires { Ready front.old words.old known }
    ensures { HasDampedLocally front.old words.old front.new words.new
        (update_of candidate update) result }
{
    match own_fault(candidate, update) {
        Ok(()) => update_in(front, words, candidate, update, known),
        Err(e) => Reply::Refused(e.number()),
    }
}

pub fn announce_with(
    front: &mut [u32],
    words: &mut [u32],
    address: u32,
    length: u32,
    hop: u32,
    feed: u32,
    preference: u8,
    known: bool,
) -> Reply
    requires { Ready front.old words.old known }
    ensures { HasDampedLocally front.old words.old front.new words.new
        (announced address length hop feed preference) result }
{
    let candidate = Candidate {
        address,
        length,
        feed,
    };
    let update = Update::Announce { hop, preference };
    update_with(front, words, candidate, update, known)
}

pub fn withdraw_with(
    front: &mut [u32],
    words: &mut [u32],
    address: u32,
    length: u32,
    feed: u32,
    known: bool,
) -> Reply
    requires { Ready front.old words.old known }
    ensures { HasDampedLocally front.old words.old front.new words.new
        (withdrawn address length feed) result }
{
    let candidate = Candidate {
        address,
        length,
        feed,
    };
    update_with(front, words, candidate, Update::Withdraw, known)
}

// ---- updates of any words that test both memories whole

// The first of 1, an update's own fault and 2 that applies: with none, the words are a front and a table.
pub fn refusal(front: &[u32], words: &[u32], own: Result<(), Refusal>) -> Result<(), Refusal>
    ensures { fault result ≡ refusal_through front.now words.now (fault own) }
{
    update::refusal(words, 4, own)?;
    front_fault(front)
}

// The same in numbers, where the own fault may have any: 0 stands for none.
pub fn refusal_number(front: &[u32], words: &[u32], own: u32) -> u32
    ensures { result ≡ refusal_through front.now words.now own }
{
    let n = update::refusal_number(words, 4, own);
    if n != 0 { n } else { front_fault_number(front) }
}

fn update_whole(front: &mut [u32], words: &mut [u32], candidate: Candidate, update: Update) -> Reply
    ensures { HasDamped front.old words.old front.new words.new (update_of candidate update) result }
{
    let own = own_fault(candidate, update);
    match refusal(front, words, own) {
        Ok(()) => update_in(front, words, candidate, update, true),
        Err(e) => Reply::Refused(e.number()),
    }
}

// A candidate announced: refused with the first of 1, 3, 4, 5, 10, 2 and 8 that applies, kept, or held afterwards.
pub fn announce(
    front: &mut [u32],
    words: &mut [u32],
    address: u32,
    length: u32,
    hop: u32,
    feed: u32,
    preference: u8,
) -> Reply
    ensures { HasDamped front.old words.old front.new words.new
        (announced address length hop feed preference) result }
{
    let candidate = Candidate {
        address,
        length,
        feed,
    };
    update_whole(
        front,
        words,
        candidate,
        Update::Announce { hop, preference },
    )
}

// A candidate withdrawn: refused with the first of 1, 3, 4, 10, 2 and 7 that applies, or neither held nor kept any more.
pub fn withdraw(front: &mut [u32], words: &mut [u32], address: u32, length: u32, feed: u32) -> Reply
    ensures { HasDamped front.old words.old front.new words.new
        (withdrawn address length feed) result }
{
    let candidate = Candidate {
        address,
        length,
        feed,
    };
    update_whole(front, words, candidate, Update::Withdraw)
}

// ---- updates of any words that test the front, and of the table what they touch

// The first of 1, an update's own fault and 2 for words that are no front that applies.
pub fn refusal_local(front: &[u32], words: &[u32], own: Result<(), Refusal>) -> Result<(), Refusal>
    ensures { fault result ≡ refusal_before front.now words.now (fault own) }
{
    if words::size::misfit(words.len()) {
        return Err(Refusal::Misfit);
    }
    own?;
    front_fault(front)
}

// The same in numbers, where the own fault may have any: 0 stands for none.
pub fn refusal_local_number(front: &[u32], words: &[u32], own: u32) -> u32
    ensures { result ≡ refusal_before front.now words.now own }
{
    if words::size::misfit(words.len()) {
        return Refusal::Misfit.number();
    }
    if own != 0 {
        own
    } else {
        front_fault_number(front)
    }
}

fn update_local(front: &mut [u32], words: &mut [u32], candidate: Candidate, update: Update) -> Reply
    ensures { HasDampedLocally front.old words.old front.new words.new
        (update_of candidate update) result }
{
    let own = own_fault(candidate, update);
    match refusal_local(front, words, own) {
        Ok(()) => update_in(front, words, candidate, update, false),
        Err(e) => Reply::Refused(e.number()),
    }
}

// A candidate announced: refused with the first of 1, 3, 4, 5, 10, 2 (no front, or what it touches is not as in a table) and 8
// that applies, kept, or held afterwards.
pub fn announce_local(
    front: &mut [u32],
    words: &mut [u32],
    address: u32,
    length: u32,
    hop: u32,
    feed: u32,
    preference: u8,
) -> Reply
    ensures { HasDampedLocally front.old words.old front.new words.new
        (announced address length hop feed preference) result }
{
    let candidate = Candidate {
        address,
        length,
        feed,
    };
    update_local(
        front,
        words,
        candidate,
        Update::Announce { hop, preference },
    )
}

// A candidate withdrawn: refused with the first of 1, 3, 4, 10, 2 and 7 that applies, or neither held nor kept any more.
pub fn withdraw_local(
    front: &mut [u32],
    words: &mut [u32],
    address: u32,
    length: u32,
    feed: u32,
) -> Reply
    ensures { HasDampedLocally front.old words.old front.new words.new
        (withdrawn address length feed) result }
{
    let candidate = Candidate {
        address,
        length,
        feed,
    };
    update_local(front, words, candidate, Update::Withdraw)
}
