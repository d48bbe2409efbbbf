// Whether the totals of slots are right: one test a slot. They are added as usize, so that no sum of foreign totals wraps.
ghost use Rattle.std.specs.Prelude.{◌≡◌, ◌+◌, ◌<◌, ◌≤◌, get_or};
ghost use Rattle.sizes.specs.Sizes.{slot_end, cell_count, inner_slots};
ghost use Rattle.logic.specs.Every.{all_b};
ghost use Rattle.totals.specs.Sums.{some, sum};
ghost use Rattle.totals.specs.Check.{inner_b, outer_b};
ghost use Rattle.words.specs.Words.{arrays_of, totals_of};
ghost use Rattle.audit.specs.Rows.{row_cells};
ghost use Rattle.audit.specs.Won.{plain_b};

use super::lent::Array;
use super::rows::ROW_CELLS;
use sizes::{CELL_SLOTS, INNER_SLOTS};

// 1 for a slot of array a that is taken, 0 for a free one.
#[tactic(auto, using(totals::specs::Sums::some_none, totals::specs::Sums::some_one))]
fn held(a: &Array, s: usize) -> usize
    requires { s < slot_end }
    ensures { (result ≡ some (get_or a.now.won.now s 0)) × (result ≤ 1) }
{
    if a.won[s] == 0 { 0 } else { 1 }
}

// What the array below cell i of array a has in all: 0 where there is none, or none of that number.
fn total_below(a: &Array, i: usize) -> usize
    requires { i < cell_count }
    ensures { (result
        ≡ sum (totals_of a.now.lent.words.now) ((arrays_of a.now.lent.words.now).link a.now.number i) 1)
        × (result < 4294967296) }
{
    match a.lent.below(a.number, i) {
        Some(b) if b <= a.lent.arrays => a.lent.total(b, 1),
        _ => 0,
    }
}

// Slot s + 1, which stands above two others, has its own prefix and what these have.
fn inner_ok(a: &Array, s: usize) -> bool
    requires { s < inner_slots }
    ensures { result ≡ inner_b (arrays_of a.now.lent.words.now) (totals_of a.now.lent.words.now) a.now.number s }
{
    let own = held(a, s + 1);
    let low = a.lent.total(a.number, 2 * (s + 1));
    let high = a.lent.total(a.number, 2 * (s + 1) + 1);
    a.lent.total(a.number, s + 1) == own + (low + high)
}

// The slot above cell i has its own prefix and what the array below the cell has.
pub(crate) fn outer_ok(a: &Array, i: usize) -> bool
    requires { i < cell_count }
    ensures { result ≡ outer_b (arrays_of a.now.lent.words.now) (totals_of a.now.lent.words.now) a.now.number i }
{
    let own = held(a, CELL_SLOTS + i);
    let below = total_below(a, i);
    a.lent.total(a.number, CELL_SLOTS + i) == own + below
}

// The same of all of them.
// kept: speed. No early way out, here and in `plains_in`: so the loop reads several totals at once.
#[tactic(auto, using(logic::specs::Reflects::all_none, logic::specs::Reflects::test_more))]
pub(crate) fn inners_ok(a: &Array) -> bool
    ensures { result
        ≡ all_b (inner_b (arrays_of a.now.lent.words.now) (totals_of a.now.lent.words.now) a.now.number) inner_slots }
{
    let mut ok = true;
    for s in 0..INNER_SLOTS {
        ok &= inner_ok(a, s);
    }
    ok
}

// The slot above cell i has its own prefix alone.
fn plain_ok(a: &Array, i: usize) -> bool
    requires { i < cell_count }
    ensures { result ≡ plain_b (arrays_of a.now.lent.words.now) (totals_of a.now.lent.words.now) a.now.number i }
{
    let own = held(a, CELL_SLOTS + i);
    a.lent.total(a.number, CELL_SLOTS + i) == own
}

// The same of each slot of a row.
#[tactic(auto, using(logic::specs::Reflects::all_none, logic::specs::Reflects::test_more))]
pub(crate) fn plains_in(a: &Array, from: usize) -> bool
    requires { from + row_cells ≤ cell_count }
    ensures { result
        ≡ all_b (λ j. plain_b (arrays_of a.now.lent.words.now) (totals_of a.now.lent.words.now) a.now.number (from + j))
        row_cells }
{
    let mut ok = true;
    for j in 0..ROW_CELLS {
        ok &= plain_ok(a, from + j);
    }
    ok
}
