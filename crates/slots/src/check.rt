// The slots of a page: whether they are right, how many candidates they have, and whether one past the first has one.
ghost use Rattle.std.specs.Prelude.{◌≡◌, ◌+◌, ◌*◌, ◌≤◌, length};
ghost use Rattle.sizes.specs.Sizes.{slot_words, slot_at, last_slot, slot_end};
ghost use Rattle.slots.specs.Count.{candidates_to};
ghost use Rattle.slots.specs.Check.{bare_slots_b};
ghost use Rattle.slots.specs.Read.{Read, HasRead};

use super::blank::zeros;
use super::slot::{faults, hop};
use sizes::{SLOT_END, SLOT_STRIDES, SLOT_WORDS};

// The first word of the slots past the first.
const LATER_AT: usize = 8;
// The words of as many slots as the test for a bare array looks at at a time.
const STRIDE_WORDS: usize = 136;
// Slots are read in so many rows of so many slots, which are so many words, and before the rows these.
const ROWS: usize = 15;

const ROW_SLOTS: usize = 32;

const ROW_WORDS: usize = 128;

const FIRST_SLOTS: usize = 31;

// The winning hops of the slots from + 1 .. to are put into `won`; 0 where these and those before them, of which `bad` tells, are
// right.
fn read_some(page: &[u32], won: &mut [u32; SLOT_END], bad: u32, from: usize, to: usize) -> u32
    requires { (slot_at slot_end ≤ length page.now) × (from ≤ to) × (to ≤ last_slot) × Read page.now won.old bad from }
    ensures { Read page.now won.new result to }
{
    let mut any = bad;
    for s in from..to {
        any |= faults(page, SLOT_WORDS * (s + 1));
        won[s + 1] = hop::<true>(page, SLOT_WORDS * (s + 1));
    }
    any
}

// How many candidates the slots from + 1 .. from + n have. No early way out: so the loop reads several words at once.
fn candidates(page: &[u32], from: usize, n: usize) -> u32
    requires { (slot_at slot_end ≤ length page.now) × (from + n ≤ last_slot) }
    ensures { (candidates_to page.now from + result ≡ candidates_to page.now (from + n))
        × (result ≤ slot_words * n) }
{
    let at = SLOT_WORDS * (from + 1);
    let mut m: u32 = 0;
    for k in 0..SLOT_WORDS * n {
        if page[at + k] != 0 {
            m += 1;
        }
    }
    m
}

// The winning hop of each slot is put into `won`. The number of candidates where every slot is right, else none. Where many slots
// in a row are free it passes them.
pub fn read(page: &[u32], won: &mut [u32; SLOT_END]) -> Option<u32>
    requires { (slot_at slot_end ≤ length page.now) × Read page.now won.old 0 0 }
    ensures { HasRead page.now won.new result }
{
    let mut bad = read_some(page, won, 0, 0, FIRST_SLOTS);
    let mut m = candidates(page, 0, FIRST_SLOTS);
    for row in 0..ROWS {
        let s = FIRST_SLOTS + ROW_SLOTS * row;
        if !zeros(page, SLOT_WORDS * (s + 1), ROW_WORDS) {
            bad = read_some(page, won, bad, s, s + ROW_SLOTS);
            m += candidates(page, s, ROW_SLOTS);
        }
    }
    if bad == 0 { Some(m) } else { None }
}

// No slot but the first has a candidate: some slots at a time, as a crowded array has one soon and a bare one none at all.
pub fn bare(page: &[u32]) -> bool
    requires { slot_at slot_end ≤ length page.now }
    ensures { result ≡ bare_slots_b page.now }
{
    for g in 0..SLOT_STRIDES {
        if !zeros(page, STRIDE_WORDS * g + LATER_AT, STRIDE_WORDS) {
            return false;
        }
    }
    true
}
