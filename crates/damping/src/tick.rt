// A tick of a front before a table: penalties are halved, what is kept below 750 is tried in order, who is below 750 with nothing
// kept is let go, and spent places are freed.
ghost use Rattle.std.specs.Prelude.{◌≡◌, true};
ghost use Rattle.words.specs.TableBut.{Table};
ghost use Rattle.rows.specs.Row.{IsWords};
ghost use Rattle.damping.specs.Tick.{TriedRow, Tries, Begins, Trying, TickedLocally};
ghost use Rattle.damping.specs.Held.{HasTicked};
ghost use Rattle.damping.specs.Ticks.{HasTickedLocally};

use super::held::{Held, count, held_in};
use super::{Update, pass_on, refusal, refusal_local};
use charge::Candidate;
use refusals::Refusal;
use replies::is_done;
use rows::{Row, row_at};

// What row i keeps below 750 is announced to the table, and kept on where that refuses it.
fn try_row(front: &mut [u32], words: &mut [u32], i: usize, known: bool)
    requires { Tries front.old words.old i known }
    ensures { TriedRow front.old words.old front.new words.new i }
{
    let row = row_at(front, i);
    if row.mark / 2 >= 750 || row.kept == 0 {
        return;
    }
    let candidate = Candidate {
        address: row.address,
        length: row.who / 8,
        feed: row.who % 8,
    };
    let update = Update::Announce {
        hop: row.kept % 65536,
        preference: (row.kept / 65536) as u8,
    };
    let r = pass_on(words, candidate, update, known);
    if is_done(r) {
        shelf::store(front, i, Row { kept: 0, ..row });
    }
}

// The first n rows, in order.
fn try_rows(front: &mut [u32], words: &mut [u32], n: usize, known: bool)
    requires { Begins front.old words.old n known }
    ensures { Trying front.old words.old front.new words.new n }
{
    for i in 0..n {
        try_row(front, words, i, known);
    }
}

// A tick of a front and any words, by a caller who knows the front to be one, and perhaps the words to be a table.
pub fn tick_with(front: &mut [u32], words: &mut [u32], known: bool)
    requires { IsWords front.old × ((known ≡ true) → Table 4 words.old) }
    ensures { TickedLocally front.old words.old front.new words.new }
{
    let n = count(front);
    shelf::halve(front);
    try_rows(front, words, n, known);
    release::settle(front, n);
}

// A tick of any words: refused with the first of 1 and 2 that applies, or answered as the check is after it.
pub fn tick(front: &mut [u32], words: &mut [u32]) -> Result<Held, Refusal>
    ensures { HasTicked front.old words.old front.new words.new result }
{
    refusal(front, words, Ok(()))?;
    tick_with(front, words, true);
    Ok(held_in(front))
}

// The same without a test of the whole table: each announcement tests what it touches itself.
pub fn tick_local(front: &mut [u32], words: &mut [u32]) -> Result<Held, Refusal>
    ensures { HasTickedLocally front.old words.old front.new words.new result }
{
    refusal_local(front, words, Ok(()))?;
    tick_with(front, words, false);
    Ok(held_in(front))
}
