// A link of an array set or cut, with the blocks around it.
ghost use Rattle.std.specs.Prelude.{◌≡◌, ◌<◌, ◌≤◌, length};
ghost use Rattle.sizes.specs.Sizes.{array_words, most_arrays, cell_count, best_bound};
ghost use Rattle.array.specs.Page.{bests, blocks};
ghost use Rattle.settle.specs.Any.{LinkedAny, CutAny};

use super::part::{Over, climb, fill_below, part};
use array::cell::{best_in, block_in, linked, plain};
use sizes::CELLS_AT;

// Links cell i, which has no link, to array a.
pub fn set_link(page: &mut [u32], i: usize, a: u32)
    requires { (length page.old ≡ array_words) × (i < cell_count) × (1 ≤ a) × (a ≤ most_arrays)
        × (blocks page.old i ≤ 8) × (bests page.old i < best_bound) }
    ensures { LinkedAny page.old page.new i a }
{
    let word = page[CELLS_AT + i];
    let best = best_in(word);
    let q = block_in(word) as usize;
    part(page, Over { cell: i, bits: 8 }, q);
    page[CELLS_AT + i] = linked(best, a);
}

// Cuts the link of cell i.
pub fn cut_link(page: &mut [u32], i: usize)
    requires { (length page.old ≡ array_words) × (i < cell_count) × (bests page.old i < best_bound) }
    ensures { CutAny page.old page.new i }
{
    let best = best_in(page[CELLS_AT + i]);
    page[CELLS_AT + i] = plain(best, 8);
    let over = Over { cell: i, bits: 8 };
    let q = climb(page, over);
    fill_below(page, over.to(q), q as u32)
}
