// The mask of each array of a table, and how many entries stand before it, in a map with a word for each array.
ghost use Rattle.std.specs.Prelude.{◌≡◌, ℕ, ◌+◌, ◌*◌, ◌<◌, ◌≤◌, length};
ghost use Rattle.logic.specs.Nonzero.{nonzero};
ghost use Rattle.sizes.specs.Sizes.{array_at};
ghost use Rattle.words.specs.Words.{arrays_of, array_count};
ghost use Rattle.words.specs.TableBut.{Table};
ghost use Rattle.packed.specs.Laid.{mask_at, entries_to};
ghost use Rattle.array.specs.Frame.{page_of};
ghost use Rattle.packed_arrays.specs.Flags.{Tells};
ghost use Rattle.packed_arrays.specs.Mapped.{or_zero, map_words, place_in as place_of, mask_in as mask_of, Mapped};

use super::flags::flag_all;
use masks::FULL_MASK;
use masks::choice::{entries, mask};
use packed::{ENTRY_WORDS, HEADER_WORDS};
use sizes::SLOT_END;
use words::part::{page, tag};
use words::size::arrays_in;

// The words of the map: one for each array that a table can have, and one for none.
pub const MAP_WORDS: usize = 4097;

// The mask of array a: that of the first has all bits.
fn mask_at(table: &[u32], a: usize) -> u32
    requires { (1 ≤ a) × (array_at (a + 1) ≤ length table.now) × Tells (page_of table.now a) }
    ensures { (result ≡ mask_at (arrays_of table.now) a) × (result < 256) }
{
    if a == 1 {
        return FULL_MASK;
    }
    let mut held = [0; SLOT_END];
    flag_all(page(table, a), &mut held);
    mask(&held)
}

// The map, and how many entries there are in all.
pub fn places(table: &[u32], map: &mut [u32; MAP_WORDS]) -> usize
    requires { Table 4 table.now }
    ensures map { Mapped (arrays_of table.now) map.new (array_count table.now) }
    ensures all { (result ≡ entries_to (arrays_of table.now) (array_count table.now)) × (result ≤ 1048576) }
{
    let mut n: usize = 0;
    for a in 1..arrays_in(table) + 1 {
        if tag(table, a) != 0 {
            let m = mask_at(table, a);
            map[a] = n as u32 * 256 + m;
            n += entries(m);
        }
    }
    n
}

// Where array b begins, by the map: 0 for none.
pub fn place_in(map: &[u32], b: Option<usize>) -> u32
    requires { or_zero b < length map.now }
    ensures { (k : ℕ) → b ≡ nonzero k → result ≡ place_of map.now k }
{
    b.map_or(
        0,
        |b| HEADER_WORDS as u32 + ENTRY_WORDS as u32 * (map[b] / 256),
    )
}

// Its mask, by the map: 0 for none.
pub fn mask_in(map: &[u32], b: Option<usize>) -> u32
    requires { or_zero b < length map.now }
    ensures mask { (k : ℕ) → b ≡ nonzero k → result ≡ mask_of map.now k }
    ensures small { result < 256 }
{
    b.map_or(0, |b| map[b] % 256)
}
