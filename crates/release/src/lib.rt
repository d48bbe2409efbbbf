// The last two passes of a tick on a front's words: who is below 750 with nothing kept is let go, and spent places are freed.
// And a front cleared.
#![tactic(auto)]

ghost use Rattle.std.specs.Prelude.{◌≡◌, [], ◌≤◌, length};
ghost use Rattle.front.specs.Place.{most_places};
ghost use Rattle.front.specs.Front.{released, spent};
ghost use Rattle.rows.specs.Row.{front_words, row_at, mark_of};
ghost use Rattle.rows.specs.Code.{HasRow};
ghost use Rattle.shelf.specs.Shift.{Holds};
ghost use Rattle.charge.specs.Calls.{Became};
ghost use Rattle.release.specs.Settle.{firsts, settled, Stepped, Gathered, cleared_to, Settles};

use rows::{MOST_PLACES, ROW_WORDS, Row, row_at};

fn let_go(mark: u32, kept: u32) -> u32
    ensures { mark_of result kept ≡ released (mark_of mark kept) }
{
    if mark / 2 >= 750 || kept != 0 {
        mark
    } else {
        mark / 2 * 2
    }
}

fn is_spent(mark: u32, kept: u32) -> bool
    ensures { result ≡ spent (mark_of mark kept) }
{
    mark / 2 == 0 && kept == 0
}

// Row i goes to row j, or nowhere; the row that is next.
fn place_row(words: &mut [u32], i: usize, j: usize) -> usize
    requires { HasRow words.old i × (j ≤ i) }
    ensures { Stepped words.old words.new i j result }
{
    let row = row_at(words, i);
    let mark = let_go(row.mark, row.kept);
    if is_spent(mark, row.kept) {
        return j;
    }
    shelf::store(words, j, Row { mark, ..row });
    j + 1
}

// The first n rows, let go and without the spent ones, stand in front; how many these are.
fn gather(words: &mut [u32], n: usize) -> usize
    requires { (length words.old ≡ front_words) × (n ≤ most_places) }
    ensures { Gathered words.old words.new n result }
{
    let mut j = 0;
    for i in 0..n {
        j = place_row(words, i, j);
    }
    j
}

fn clear_rows(words: &mut [u32], from: usize, to: usize)
    requires { (length words.old ≡ front_words) × (from ≤ to) × (to ≤ most_places) }
    ensures { Holds words.new (cleared_to (row_at words.old) from to) }
{
    words[ROW_WORDS * from..ROW_WORDS * to].fill(0);
}

pub fn settle(words: &mut [u32], n: usize)
    requires { Settles words.old n }
    ensures { Became words.new (settled (firsts (row_at words.old) 0 n)) }
{
    let j = gather(words, n);
    clear_rows(words, j, n);
}

// A front with no place, whatever the words were.
pub fn clear(words: &mut [u32])
    requires { length words.old ≡ front_words }
    ensures { Became words.new [] }
{
    clear_rows(words, 0, MOST_PLACES);
}
