// The four words of a slot, the first of them at word i of a page: feed f's is at i + f - 1.
// kept: a page and a place: of four words that std's `first_chunk_mut` lends, `store` cannot prove what the page ends as.
// kept: a feed as a number, as the calls have it, with `IsFeed` as the one word that a contract says of it.
ghost use Rattle.std.specs.Prelude.{◌≡◌, ◌+◌, ◌<◌, ◌≤◌, eqb, length};
ghost use Rattle.sizes.specs.Sizes.{slot_words, slot_at, hop_bound};
ghost use Rattle.slots.specs.Word.{IsFeed};
ghost use Rattle.slots.specs.Winner.{lower as lowerOf, winner4 as winnerOf4, won_hop};
ghost use Rattle.slots.specs.Slot.{free_slot_b, right_slot_b};
ghost use Rattle.slots.specs.Page.{words_at, page_with};
ghost use Rattle.slots.specs.Stored.{HasStored};

use super::word::{fault, hop_in};
use sizes::{HOP_BOUND, SLOT_WORDS};

// The winning hops of a slot, before and after a word of it was set; 0 for none.
#[derive(Clone, Copy, Debug, PartialEq, Eq)]
pub struct Hops {
    pub before: u32,
    pub after: u32,
}

// Of a word and one of a higher feed, the one that wins: by tests, as an update looks at few slots and most words are 0, or FLAT,
// by one choice, so that a loop over slots has no branch.
fn lower<const FLAT: bool>(x: u32, y: u32) -> u32
    ensures { result ≡ lowerOf x y }
{
    if FLAT {
        return if (y != 0) & ((x == 0) | (y / HOP_BOUND < x / HOP_BOUND)) {
            y
        } else {
            x
        };
    }
    if y == 0 {
        return x;
    }
    if x == 0 {
        return y;
    }
    if y / HOP_BOUND < x / HOP_BOUND { y } else { x }
}

// Of the words of feeds 1 to 4, the one that wins.
pub fn winner4<const FLAT: bool>(a: u32, b: u32, c: u32, d: u32) -> u32
    ensures { result ≡ winnerOf4 a b c d }
{
    lower::<FLAT>(a, lower::<FLAT>(b, lower::<FLAT>(c, d)))
}

// The winning hop of a slot, 0 for none; FLAT in a loop over slots.
pub fn hop<const FLAT: bool>(page: &[u32], i: usize) -> u32
    requires { i + slot_words ≤ length page.now }
    ensures { (result ≡ won_hop (words_at page.now i)) × (result < hop_bound) }
{
    hop_in(winner4::<FLAT>(page[i], page[i + 1], page[i + 2], page[i + 3]))
}

// The same of one slot.
pub fn hop_at(page: &[u32], i: usize) -> u32
    requires { i + slot_words ≤ length page.now }
    ensures { (result ≡ won_hop (words_at page.now i)) × (result < hop_bound) }
{
    hop::<false>(page, i)
}

// The same of slot s.
pub fn hop_of(page: &[u32], s: usize) -> u32
    requires { slot_at (s + 1) ≤ length page.now }
    ensures { (result ≡ won_hop (words_at page.now (slot_at s))) × (result < hop_bound) }
{
    hop_at(page, SLOT_WORDS * s)
}

// No feed has a candidate there.
pub fn is_free(page: &[u32], i: usize) -> bool
    requires { i + slot_words ≤ length page.now }
    ensures { result ≡ free_slot_b (words_at page.now i) }
{
    page[i] | (page[i + 1] | (page[i + 2] | page[i + 3])) == 0
}

// 0 where the four words are right.
pub fn faults(page: &[u32], i: usize) -> u32
    requires { i + slot_words ≤ length page.now }
    ensures { eqb result 0 ≡ right_slot_b (words_at page.now i) }
{
    fault(page[i]) | (fault(page[i + 1]) | (fault(page[i + 2]) | fault(page[i + 3])))
}

// A feed's word.
pub fn word_at(page: &[u32], i: usize, feed: usize) -> u32
    requires { (i + slot_words ≤ length page.now) × IsFeed feed }
    ensures { result ≡ words_at page.now i feed }
{
    page[i + feed - 1]
}

// A feed's word set.
pub fn set_word(page: &mut [u32], i: usize, feed: usize, word: u32)
    requires { (i + slot_words ≤ length page.old) × IsFeed feed }
    ensures { page.new ≡ page_with page.old i feed word }
{
    page[i + feed - 1] = word;
}

// A feed's word set, with the slot's winning hops before and after.
pub fn store(page: &mut [u32], i: usize, feed: usize, word: u32) -> Hops
    requires { (i + slot_words ≤ length page.old) × IsFeed feed }
    ensures { HasStored page.old page.new i feed word result }
{
    let before = hop_at(page, i);
    set_word(page, i, feed, word);
    let after = hop_at(page, i);
    Hops { before, after }
}
