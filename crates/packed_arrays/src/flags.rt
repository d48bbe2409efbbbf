// The prefixes of an array as flags, a word for each slot: its routes, and its links as prefixes of 8 bits. A slot whose total is
// 0 has no route, and its words are not read.
ghost use Rattle.std.specs.Prelude.{◌≡◌, ◌<◌, ◌≤◌};
ghost use Rattle.sizes.specs.Sizes.{slot_end};
ghost use Rattle.packed_arrays.specs.Flags.{Tells, flag_of, Flagged};

use array::cell::has_link;
use sizes::{ARRAY_WORDS, CELL_SLOTS, CELLS_AT, SLOT_END, TOTALS_AT};
use slots::slot::hop_of;

// 1 where slot s is held, else 0.
fn flag(page: &[u32; ARRAY_WORDS], s: usize) -> u32
    requires { (1 ≤ s) × (s < slot_end) × Tells page.now }
    ensures { result ≡ flag_of page.now s }
{
    let routed = page[TOTALS_AT + s] != 0 && hop_of(page, s) != 0;
    u32::from(routed || s >= CELL_SLOTS && has_link(page[CELLS_AT + (s - CELL_SLOTS)]))
}

// The flags of all slots.
pub fn flag_all(page: &[u32; ARRAY_WORDS], held: &mut [u32; SLOT_END])
    requires { Tells page.now }
    ensures { Flagged page.now held.new slot_end }
{
    for s in 1..SLOT_END {
        held[s] = flag(page, s);
    }
}
