// One array laid out: its entries, four words each, in the order of their indices.
ghost use Rattle.std.specs.Prelude.{◌≡◌, ◌≢◌, ◌+◌, ◌*◌, ◌^◌, ◌<◌, ◌≤◌, length};
ghost use Rattle.std.specs.Int.Count.{ones};
ghost use Rattle.logic.specs.Nonzero.{nonzero};
ghost use Rattle.sizes.specs.Sizes.{slot_end, most_arrays};
ghost use Rattle.array.specs.Page.{links};
ghost use Rattle.packed.specs.Layout.{entry_words};
ghost use Rattle.packed.specs.Byte.{below_of};
ghost use Rattle.packed_arrays.specs.Flags.{Tells};
ghost use Rattle.packed_arrays.specs.Mapped.{or_zero};
ghost use Rattle.packed_arrays.specs.Filled.{own_of, put_to, put_held, Filled};

use super::flags::flag_all;
use super::places::{MAP_WORDS, mask_in, place_in};
use array::cell::{best_in, link_in};
use masks::choice::entries;
use masks::entry::entry;
use masks::index::spread;
use masks::prefix::Prefix;
use packed::ENTRY_WORDS;
use sizes::{ARRAY_WORDS, CELL_SLOTS, CELLS_AT, HOP_BOUND, SLOT_END};
use slots::slot::hop_of;

// The cover of a held slot.
fn own(page: &[u32; ARRAY_WORDS], s: usize) -> u32
    requires { (1 ≤ s) × (s < slot_end) }
    ensures { result ≡ own_of page.now s }
{
    if s < CELL_SLOTS {
        return (8 - Prefix { slot: s }.spare()) * HOP_BOUND + hop_of(page, s);
    }
    best_in(page[CELLS_AT + (s - CELL_SLOTS)])
}

// The number of the array below a slot, which a slot of 8 bits may have.
fn below(page: &[u32; ARRAY_WORDS], s: usize) -> Option<usize>
    requires { s < slot_end }
    ensures number { result ≡ nonzero (below_of (links page.now) s) }
    ensures small { below_of (links page.now) s ≤ most_arrays }
{
    if s >= CELL_SLOTS {
        return link_in(page[CELLS_AT + (s - CELL_SLOTS)]);
    }
    None
}

#[tactic(auto, unfolding(crate::specs::Filled::put_to))]
fn put(words: &mut [u32], at: usize, slot: u32, best: u32, place: u32, mask: u32)
    requires { at + entry_words ≤ length words.old }
    ensures { words.new ≡ put_to words.old at slot best place mask }
{
    words[at] = slot;
    words[at + 1] = best;
    words[at + 2] = place;
    words[at + 3] = mask;
}

// The entry of a held slot, or of none.
fn put_for(
    page: &[u32; ARRAY_WORDS],
    map: &[u32; MAP_WORDS],
    words: &mut [u32],
    at: usize,
    slot: Option<usize>,
)
    requires { (at + entry_words ≤ length words.old) × (or_zero slot < slot_end)
        × slot ≢ Some 0 }
    ensures { words.new ≡ put_held page.now map.now words.old at (or_zero slot) }
{
    let Some(s) = slot else {
        return put(words, at, 0, 0, 0, 0);
    };
    let b = below(page, s);
    put(
        words,
        at,
        s as u32,
        own(page, s),
        place_in(map, b),
        mask_in(map, b),
    )
}

// The entries of the array with this page and the mask m, from word o on.
pub fn fill(page: &[u32; ARRAY_WORDS], map: &[u32; MAP_WORDS], words: &mut [u32], o: usize, m: u32)
    requires { (m < 256) × (o + entry_words * 2 ^ ones m ≤ length words.old) × Tells page.now }
    ensures { Filled page.now map.now words.old words.new o m (2 ^ ones m) }
{
    let mut held = [0; SLOT_END];
    flag_all(page, &mut held);
    for v in 0..entries(m) {
        let slot = entry(&held, m, spread(m, v as u32));
        put_for(page, map, words, o + ENTRY_WORDS * v, slot);
    }
}
