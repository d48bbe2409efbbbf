// The cells of an array by rows: each has a right link, and the slot above it a right total. Most rows have no link, and are
// passed at once. Where a cell has one, what is read of the array below is read together: it is far away in memory.
ghost use Rattle.std.specs.Prelude.{◌≡◌, ◌+◌, ◌<◌, ◌≤◌, eqb};
ghost use Rattle.sizes.specs.Sizes.{cell_count};
ghost use Rattle.logic.specs.Every.{all_b};
ghost use Rattle.words.specs.Words.{arrays_of};
ghost use Rattle.tree.specs.Check.{link_b};
ghost use Rattle.audit.specs.Rows.{row_cells, tied_b};

use super::lent::Array;
use super::sums::{outer_ok, plains_in};
use array::tag::{level_in, tag_of};
use sizes::{CELL_COUNT, MARK_UNIT};

// The cells of a row.
pub(crate) const ROW_CELLS: usize = 16;

// No cell of a row of array a has a link.
#[tactic(auto, using(logic::specs::Reflects::all_none, crate::proofs::Laws::unlinked_more))]
fn unlinked(a: &Array, from: usize) -> bool
    requires { from + row_cells ≤ cell_count }
    ensures { result ≡ all_b (λ j. eqb ((arrays_of a.now.lent.words.now).link a.now.number (from + j)) 0) row_cells }
{
    let mut any: u32 = 0;
    for j in 0..ROW_CELLS {
        any |= a.lent.cell(a.number, from + j) / MARK_UNIT;
    }
    any == 0
}

// Cell i of array a links to nothing, or to an array whose tag names it.
#[tactic(auto, unfolding(tree::specs::Check::link_b))]
fn link_ok(a: &Array, i: usize) -> bool
    requires { i < cell_count }
    ensures { result ≡ link_b a.now.lent.arrays a.now.lent.levels (arrays_of a.now.lent.words.now) a.now.number i }
{
    let lent = &a.lent;
    let Some(b) = lent.below(a.number, i) else {
        return true;
    };
    let level = level_in(lent.tag(a.number));
    b <= lent.arrays
        && 1 <= level
        && level < lent.levels
        && lent.tag(b) == tag_of(a.number, i, level + 1)
}

// Cell i of array a and the slot above it are right.
fn tied(a: &Array, i: usize) -> bool
    requires { i < cell_count }
    ensures { result ≡ tied_b a.now.lent.arrays a.now.lent.levels a.now.lent.words.now a.now.number i }
{
    link_ok(a, i) & outer_ok(a, i)
}

// The same of a row of cells.
fn row_ok(a: &Array, from: usize) -> bool
    requires { from + row_cells ≤ cell_count }
    ensures { result
        ≡ all_b (λ j. tied_b a.now.lent.arrays a.now.lent.levels a.now.lent.words.now a.now.number (from + j)) row_cells }
{
    if unlinked(a, from) {
        return plains_in(a, from);
    }
    for j in 0..ROW_CELLS {
        if !tied(a, from + j) {
            return false;
        }
    }
    true
}

// The same of all cells.
pub(crate) fn rows_ok(a: &Array) -> bool
    ensures { result
        ≡ all_b (tied_b a.now.lent.arrays a.now.lent.levels a.now.lent.words.now a.now.number) cell_count }
{
    for row in 0..CELL_COUNT / ROW_CELLS {
        if !row_ok(a, ROW_CELLS * row) {
            return false;
        }
    }
    true
}
