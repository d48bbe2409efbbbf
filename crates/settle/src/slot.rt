// A word of a slot set, with the blocks around the slot.
ghost use Rattle.std.specs.Prelude.{◌≡◌, ◌<◌, ◌≤◌, length};
ghost use Rattle.sizes.specs.Sizes.{array_words, cell_count};
ghost use Rattle.slots.specs.Word.{IsFeed};
ghost use Rattle.array.specs.Put.{Spot};
ghost use Rattle.settle.specs.Slot.{WasFree, WasTaken};
ghost use Rattle.settle.specs.Was.{Was};
ghost use Rattle.settle.specs.Recell.{took_in, freed_in, resettled_in};
ghost use Rattle.settle.specs.Any.{ResettledAny, ResetsAny};

use super::part::{Over, climb, fill_below, part};
use array::cell::{block_in, has_link};
use array::change::Changed;
use array::place::first_cell;
use sizes::CELLS_AT;

// A slot was taken. Where nothing above it was calm, as in a crowded array, there is nothing to write.
fn took(page: &mut [u32], over: Over)
    requires { length page.old ≡ array_words }
    ensures { ResettledAny (WasFree page.old over.cell over.bits) page.old page.new (took_in page.old over.cell over.bits) }
{
    let word = page[CELLS_AT + over.cell];
    let q = block_in(word) as usize;
    if !has_link(word) && q < over.bits {
        part(page, over, q)
    }
}

// A slot was freed.
fn freed(page: &mut [u32], over: Over)
    requires { length page.old ≡ array_words }
    ensures { ResettledAny (WasTaken page.old over.cell over.bits) page.old page.new (freed_in page.old over.cell over.bits) }
{
    let word = page[CELLS_AT + over.cell];
    if has_link(word) || block_in(word) > over.bits as u32 {
        return;
    }
    let q = climb(page, over);
    if q < over.bits {
        fill_below(page, over.to(q), q as u32)
    }
}

// A slot was `old` and is `hop`: another hop changes no block.
fn resettle(page: &mut [u32], over: Over, old: u32, hop: u32)
    requires { length page.old ≡ array_words }
    ensures { ResettledAny (Was page.old over.cell over.bits old hop) page.old page.new
        (resettled_in page.old over.cell over.bits old hop) }
{
    if old == 0 {
        if hop != 0 {
            took(page, over)
        }
    } else if hop == 0 {
        freed(page, over)
    }
}

// Sets the word of a feed in the slot of in-array length d and value x, to 0 for none. Where another hop wins there then, the
// cells below that no longer slot covers take the slot's cover, and are counted; and every cell without a link has its block.
pub fn reslot(page: &mut [u32], d: usize, x: usize, feed: usize, word: u32) -> Changed
    requires { Spot page.old d x × IsFeed feed }
    ensures { ResetsAny page.old page.new d x feed word result }
{
    let changed = array::change::reslot(page, d, x, feed, word);
    let over = Over {
        cell: first_cell(d, x),
        bits: d,
    };
    resettle(page, over, changed.before, changed.after);
    changed
}
