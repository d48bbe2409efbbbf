// The totals of arrays: one read, by array and slot or by the slot's place; a number added in one array; the same from an array
// up to the root.
ghost use Rattle.std.specs.Prelude.{◌≡◌, ◌+◌, ◌-◌, ◌<◌, ◌≤◌, length};
ghost use Rattle.sizes.specs.Sizes.{slot_end, most_words, array_at};
ghost use Rattle.tree.specs.Arrays.{lev};
ghost use Rattle.words.specs.Words.{arrays_of, totals_of};
ghost use Rattle.words.specs.Added.{added_in, added_on};
ghost use Rattle.words.specs.Climbing.{Climbing};
ghost use Rattle.words.specs.Half.{Within};
ghost use Rattle.words.specs.Empty.{total_in};
ghost use Rattle.words.specs.Retotalled.{step as step_of, retotalled};

use super::part::tag;
use array::tag::{cell_in, parent_in};
use sizes::{ARRAY_WORDS, CELL_SLOTS, SLOT_WORDS, TOTALS_AT};

// What takes 1 away, as words wrap.
pub const LESS_ONE: u32 = u32::MAX;

// The total of slot s of array a.
pub fn total(words: &[u32], a: usize, s: usize) -> u32
    requires { (array_at (a + 1) ≤ length words.now) × (s < slot_end) }
    ensures { result ≡ totals_of words.now a s }
{
    words[ARRAY_WORDS * a + (TOTALS_AT + s)]
}

// The total of a slot that is named by the place of its first word.
#[tactic(auto, unfolding(crate::specs::Empty::total_in))]
pub fn total_in(words: &[u32], slot: usize) -> u32
    requires { Within words.now slot }
    ensures { result ≡ total_in words.now slot }
{
    let s = slot % ARRAY_WORDS;
    words[slot - s + TOTALS_AT + s / SLOT_WORDS]
}

// A number added to the totals of a slot of array a and of those above it there. Its page alone is lent.
fn add_in(words: &mut [u32], a: usize, slot: usize, by: u32)
    requires { (array_at (a + 1) ≤ length words.old) × (length words.old ≤ most_words) × (slot < slot_end) }
    ensures { words.new ≡ added_in words.old a slot by }
{
    let from = ARRAY_WORDS * a;
    let to = from + ARRAY_WORDS;
    totals::add_up(&mut words[from..to], slot, by)
}

// The same, and in each array above it at the slot of the cell that leads down.
pub fn add_on(words: &mut [u32], a: usize, slot: usize, by: u32)
    requires { Climbing words.old a × (length words.old ≤ most_words) × (slot < slot_end) }
    ensures { words.new
        ≡ added_on (lev (arrays_of words.old) a - 1) words.old a slot by }
{
    let mut b = a;
    let mut s = slot;
    while b != 1 {
        let own = tag(words, b);
        add_in(words, b, s, by);
        b = parent_in(own);
        s = CELL_SLOTS + cell_in(own);
    }
    add_in(words, 1, s, by)
}

// What a slot's winning hops before and after, 0 for none, add to its totals.
// kept: hop 0 is none in the words themselves (`step` of specs/Retotalled), and no option is made of it to be tested once.
fn step(before: u32, after: u32) -> u32
    ensures { result ≡ step_of before after }
{
    match (before == 0, after == 0) {
        (true, false) => 1,
        (false, true) => LESS_ONE,
        _ => 0,
    }
}

// The totals after a word of a slot of array a was set: 1 more on its path where it got its first candidate, 1 less where it
// lost its last.
pub fn retotal(words: &mut [u32], a: usize, slot: usize, before: u32, after: u32)
    requires { Climbing words.old a × (length words.old ≤ most_words) × (slot < slot_end) }
    ensures { words.new
        ≡ retotalled (lev (arrays_of words.old) a - 1) words.old a slot (step_of before after) }
{
    let by = step(before, after);
    if by == 0 {
        return;
    }
    add_on(words, a, slot, by)
}
