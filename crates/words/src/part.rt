// Where an array stands in the words, and what is read of it: its tag, a slot, a cell, or all of its words; where the halves of a
// prefix stand.
// kept: words and an array's number are two arguments, as a type that borrows the words ends at each write of an update.
ghost use Rattle.std.specs.Prelude.{◌≡◌, ◌+◌, ◌<◌, ◌≤◌, ◌≢◌, MatchOption, length, slice_index};
ghost use Rattle.logic.specs.Nonzero.{nonzero};
ghost use Rattle.sizes.specs.Sizes.{array_words, most_words, slot_end, cell_count, array_at, cell_at};
ghost use Rattle.array.specs.Frame.{page_of};
ghost use Rattle.slots.specs.Word.{IsFeed};
ghost use Rattle.words.specs.Words.{arrays_of, words_of};
ghost use Rattle.words.specs.Table.{blank_b};
ghost use Rattle.words.specs.Half.{Within, half_of};

use sizes::{ARRAY_WORDS, BODY_WORDS, CELL_SLOTS, CELLS_AT, LAST_SLOT, SLOT_WORDS, TOTALS_AT};
use slots::blank::zeros;

// The place of array a's first word, one past the array before it.
pub fn array_at(a: usize) -> usize
    requires { array_at a < 9223372036854775808 }
    ensures { result ≡ array_at a }
{
    ARRAY_WORDS * a
}

// The tag of array a.
pub fn tag(words: &[u32], a: usize) -> u32
    requires { array_at a < length words.now }
    ensures { result ≡ (arrays_of words.now).tag a }
{
    words[ARRAY_WORDS * a]
}

// A feed's word in slot s of array a.
pub fn word(words: &[u32], a: usize, s: usize, feed: usize) -> u32
    requires { (array_at (a + 1) ≤ length words.now) × (s < slot_end) × IsFeed feed }
    ensures { result ≡ words_of words.now a s feed }
{
    words[ARRAY_WORDS * a + (SLOT_WORDS * s + feed - 1)]
}

// The word of cell i of array a.
pub fn cell(words: &[u32], a: usize, i: usize) -> u32
    requires { (array_at (a + 1) ≤ length words.now) × (i < cell_count) }
    ensures { result ≡ slice_index words.now (cell_at a i) }
{
    words[ARRAY_WORDS * a + CELLS_AT + i]
}

// The words of array a.
pub fn page(words: &[u32], a: usize) -> &[u32; ARRAY_WORDS]
    requires { array_at (a + 1) ≤ length words.now }
    ensures { result.now ≡ page_of words.now a }
{
    let from = ARRAY_WORDS * a;
    let to = from + ARRAY_WORDS;
    words[from..to].try_into().unwrap()
}

// The slots, cells and totals of array a are 0.
pub fn blank(words: &[u32], a: usize) -> bool
    requires { (array_at (a + 1) ≤ length words.now) × (length words.now ≤ most_words) }
    ensures { result ≡ blank_b words.now a }
{
    let at = ARRAY_WORDS * a;
    zeros(words, at + SLOT_WORDS, BODY_WORDS) && zeros(words, at + (TOTALS_AT + 1), LAST_SLOT)
}

// The slot of the lower half of the prefix in `slot`, if there is one; the upper half's is the next. Slots are named by the place
// of their first word. Slot s of an array has its halves at 2 s and 2 s + 1; from slot 256 on it stands above a cell and has its
// halves in the array below that.
pub fn half(words: &[u32], slot: usize) -> Option<usize>
    requires { Within words.now slot }
    ensures low { slot ≢ 0 → result ≡ nonzero (half_of words.now slot) }
    ensures any { MatchOption result (half_of words.now slot ≡ 0) (λ low. low ≡ half_of words.now slot) }
{
    let s = slot % ARRAY_WORDS;
    if s < SLOT_WORDS * CELL_SLOTS {
        return Some(slot + s);
    }
    let cell = slot - s + (CELLS_AT - CELL_SLOTS) + s / SLOT_WORDS;
    let below = array::cell::link_in(words[cell])?;
    Some(ARRAY_WORDS * below + 2 * SLOT_WORDS)
}
