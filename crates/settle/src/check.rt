// Whether the blocks of an array are right, and what is calm in it.
ghost use Rattle.std.specs.Prelude.{◌≡◌, cond, ◌&&◌, ◌*◌, ◌^◌, ◌<◌, ◌≤◌, eqb};
ghost use Rattle.sizes.specs.Sizes.{slot_end, cell_slots};
ghost use Rattle.calm.specs.Check.{settled_b};
ghost use Rattle.slots.specs.Read.{Won};
ghost use Rattle.array.specs.Page.{slots, links, blocks};
ghost use Rattle.settle.specs.Busy.{Busy, Lifted};
ghost use Rattle.settle.specs.Blocks.{Blocks, cell_is};

use array::cell::{block_in, has_link};
use sizes::{ARRAY_WORDS, CELL_COUNT, CELL_SLOTS, CELLS_AT, MARK_UNIT, SLOT_END};

// 0 where all four are.
// kept: a number, as the marks of all slots are words of one list, and a loop over them joins these by or.
fn any(a: u32, b: u32, c: u32, d: u32) -> u32
    ensures { eqb result 0 ≡ ((eqb a 0 && eqb b 0) && (eqb c 0 && eqb d 0)) }
{
    (a | b) | (c | d)
}

// For each slot, 0 where no slot below it is taken and no cell below it has a link: those over one cell alone.
fn marks(page: &[u32; ARRAY_WORDS]) -> [u32; SLOT_END]
    ensures { Busy (slots page.now) (links page.now) result cell_slots }
{
    let mut all = [0; SLOT_END];
    for i in (0..CELL_COUNT).rev() {
        all[CELL_SLOTS + i] = page[CELLS_AT + i] / MARK_UNIT;
    }
    all
}

// Those of in-array length d, which are m, m + 1 .. 2 m - 1, each from the two below it. A level at a time, as within one no slot
// waits for another.
fn lift(won: &[u32; SLOT_END], all: &mut [u32; SLOT_END], d: u32)
    requires { d < 8 }
    ensures { Lifted won.now all.old all.new (2 ^ d) (2 * 2 ^ d) }
{
    let m = 1 << d;
    for s in m..2 * m {
        let two = 2 * s;
        all[s] = any(won[two], won[two + 1], all[two], all[two + 1]);
    }
}

// All of them. That of slot 1 is 0 where the array is empty.
pub fn busy(page: &[u32; ARRAY_WORDS], won: &[u32; SLOT_END]) -> [u32; SLOT_END]
    requires { Won page.now won.now }
    ensures { Busy (slots page.now) (links page.now) result 1 }
{
    let mut all = marks(page);
    for d in (0..8).rev() {
        lift(won, &mut all, d);
    }
    all
}

// The block below a slot: the one above it where it is calm there, else d.
fn deeper(busy: u32, d: u32, above: u32) -> u32
    ensures { result ≡ cond (eqb busy 0) above d }
{
    if busy == 0 { above } else { d }
}

// The blocks of the slots below those of in-array length d, which are m, m + 1 .. 2 m - 1, each from the one above it.
fn sink(all: &[u32; SLOT_END], blocks: &mut [u32; SLOT_END], d: u32)
    requires { (d < 8) × Blocks all.now blocks.old (2 * 2 ^ d) }
    ensures { Blocks all.now blocks.new (2 * (2 * 2 ^ d)) }
{
    let m = 1 << d;
    for s in m..2 * m {
        let block = deeper(all[s], d + 1, blocks[s]);
        blocks[2 * s] = block;
        blocks[2 * s + 1] = block;
    }
}

// The block of every slot.
fn blocks_of(all: &[u32; SLOT_END]) -> [u32; SLOT_END]
    ensures { Blocks all.now result slot_end }
{
    let mut blocks = [0; SLOT_END];
    for d in 0..8 {
        sink(all, &mut blocks, d);
    }
    blocks
}

// A cell's word has this block, or a link.
fn cell_is(word: u32, block: u32) -> bool
    ensures { result ≡ cell_is word block }
{
    has_link(word) | (block_in(word) == block)
}

// Every cell without a link has its block: of a page of which it is given what is calm below each slot.
pub fn settled(page: &[u32; ARRAY_WORDS], all: &[u32; SLOT_END]) -> bool
    requires { Busy (slots page.now) (links page.now) all.now 1 }
    ensures { result ≡ settled_b (slots page.now) (links page.now) (blocks page.now) }
{
    let blocks = blocks_of(all);
    let mut ok = true;
    for i in 0..CELL_COUNT {
        ok &= cell_is(page[CELLS_AT + i], blocks[CELL_SLOTS + i]);
    }
    ok
}
