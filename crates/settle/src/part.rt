// A part of an array: blocks written into it, and the block of a cell found from below.
ghost use Rattle.std.specs.Prelude.{◌≡◌, cond, ◌+◌, ◌-◌, ◌/◌, ◌^◌, ◌<◌, ◌≤◌, leb, length};
ghost use Rattle.sizes.specs.Sizes.{array_words, slot_end, cell_count, cell_slots, block_bound};
ghost use Rattle.numbers.specs.Agree.{agreement};
ghost use Rattle.calm.specs.Climb.{across as acrossOf, rests as restsOf, joins as joinsOf, climb_of};
ghost use Rattle.array.specs.Cell.{link_in, block_in};
ghost use Rattle.array.specs.With.{with_block};
ghost use Rattle.array.specs.Page.{slots, links, blocks};
ghost use Rattle.settle.specs.Fill.{filled};
ghost use Rattle.settle.specs.Part.{start, stage, Recelled};

use array::cell::{block_in, has_link, with_block};
use array::place::pow2;
use sizes::{CELL_SLOTS, CELLS_AT};
use slots::slot::hop_of;

// The slot of so many bits over a cell, and the cells below that slot: those that share so many bits with the cell.
#[derive(Clone, Copy)]
pub struct Over {
    pub cell: usize,
    pub bits: usize,
    ghost inside: { (cell < cell_count) × (bits ≤ 8) },
}

// Writes the block q into the cells from..to.
fn fill(page: &mut [u32], from: usize, to: usize, q: u32)
    requires { (length page.old ≡ array_words) × (from ≤ to) × (to ≤ cell_count) × (q < block_bound) }
    ensures { page.new ≡ filled page.old from (to - from) q }
{
    for i in from..to {
        let cell = CELLS_AT + i;
        page[cell] = with_block(page[cell], q);
    }
}

impl Over {
    // The slot of another number of bits over the cell.
    pub fn to(self, bits: usize) -> Over
        requires { bits ≤ 8 }
        ensures { (result.cell ≡ self.cell) × (result.bits ≡ bits) }
    {
        Over {
            cell: self.cell,
            bits,
        }
    }

    // The slot's number.
    pub fn slot(self) -> usize
        ensures { (result ≡ (cell_slots + self.cell) / 2 ^ (8 - self.bits)) × (result < slot_end) }
    {
        (CELL_SLOTS + self.cell) >> (8 - self.bits)
    }

    // The first of the cells.
    fn first(self) -> usize
        ensures { (result ≡ start self.cell self.bits) × (result + 2 ^ (8 - self.bits) ≤ cell_count) }
    {
        let e = 8 - self.bits;
        (self.cell >> e) * pow2(e)
    }

    // What stands across: a cell in the other half below the slot of one bit less, with as many bits.
    fn across(self) -> Over
        requires { 1 ≤ self.bits }
        ensures { (result.cell ≡ acrossOf self.cell (8 - self.bits)) × (result.bits ≡ self.bits) }
    {
        Over {
            cell: self.cell ^ pow2(8 - self.bits),
            bits: self.bits,
        }
    }
}

// Writes the block q into the cells below a slot.
pub fn fill_below(page: &mut [u32], over: Over, q: u32)
    requires { (length page.old ≡ array_words) × (q < block_bound) }
    ensures { Recelled page.old page.new (λ j w. cond (leb over.bits (agreement 8 j over.cell)) (with_block w q) w) }
{
    let from = over.first();
    let to = from + pow2(8 - over.bits);
    fill(page, from, to, q)
}

// Something at a slot is taken, whose block is q: the cells that share more bits with its cell have longer blocks. Each half that
// leaves the cell is a run of its own, so that a cell is written once.
pub fn part(page: &mut [u32], over: Over, q: usize)
    requires { (length page.old ≡ array_words) × (q ≤ over.bits) }
    ensures { Recelled page.old page.new (stage over.cell q over.bits) }
{
    if q >= over.bits {
        return;
    }
    for m in q..over.bits {
        fill_below(page, over.to(m + 1).across(), m as u32 + 1);
    }
    fill_below(page, over, over.bits as u32)
}

// A cell without a link whose block is at most m.
fn rests(word: u32, m: usize) -> bool
    requires { m ≤ 8 }
    ensures { result ≡ restsOf (λ _. link_in word) (λ _. block_in word) 0 m }
{
    !has_link(word) && block_in(word) <= m as u32
}

// The two halves below the slot of one bit less are free and calm, if this one is calm below.
fn joins(page: &[u32], over: Over) -> bool
    requires { (length page.now ≡ array_words) × (1 ≤ over.bits) }
    ensures { result ≡ joinsOf (slots page.now) (links page.now) (blocks page.now) over.cell over.bits }
{
    let half = over.across();
    hop_of(page, over.slot()) == 0
        && hop_of(page, half.slot()) == 0
        && rests(page[CELLS_AT + half.cell], half.bits)
}

// The block of the cell, where all below its slot is calm and the cells across have theirs.
pub fn climb(page: &[u32], over: Over) -> usize
    requires { length page.now ≡ array_words }
    ensures { (result ≡ climb_of (slots page.now) (links page.now) (blocks page.now) over.cell over.bits)
        × (result ≤ over.bits) }
{
    for m in (1..over.bits + 1).rev() {
        if !joins(page, over.to(m)) {
            return m;
        }
    }
    0
}
