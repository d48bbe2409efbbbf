// Rows of a front's words: stored, put in by shifting, halved; and how many places come before a candidate.
#![tactic(auto)]

ghost use Rattle.std.specs.Prelude.{◌≡◌, ◌≤◌, length};
ghost use Rattle.front.specs.Place.{most_places};
ghost use Rattle.rows.specs.Row.{front_words, row_at, places_of, IsWords};
ghost use Rattle.rows.specs.Code.{row_of, HasRow};
ghost use Rattle.shelf.specs.Shift.{Holds, replaced, inserted, halved_row, before, rank};

use rows::{LAST_PLACE, MOST_PLACES, ROW_WORDS, Row, row_at};

// ---- rows

pub fn store(words: &mut [u32], i: usize, row: Row)
    requires { HasRow words.old i }
    ensures { Holds words.new (replaced (row_at words.old) i (row_of row)) }
{
    let at = ROW_WORDS * i;
    words[at] = row.address;
    words[at + 1] = row.who;
    words[at + 2] = row.mark;
    words[at + 3] = row.kept;
}

// A new row; those from there on go one up, and the last is lost.
pub fn insert(words: &mut [u32], at: usize, row: Row)
    requires { HasRow words.old at }
    ensures { Holds words.new (inserted (row_at words.old) at (row_of row)) }
{
    words.copy_within(ROW_WORDS * at..ROW_WORDS * LAST_PLACE, ROW_WORDS * (at + 1));
    store(words, at, row);
}

fn halve_row(words: &mut [u32], i: usize)
    requires { HasRow words.old i }
    ensures { Holds words.new (replaced (row_at words.old) i (halved_row (row_at words.old i))) }
{
    let row = row_at(words, i);
    let mark = row.mark / 4 * 2 + row.mark % 2;
    store(words, i, Row { mark, ..row });
}

pub fn halve(words: &mut [u32])
    requires { length words.old ≡ front_words }
    ensures { Holds words.new (λ j. halved_row (row_at words.old j)) }
{
    for i in 0..MOST_PLACES {
        halve_row(words, i);
    }
}

// ---- where a candidate stands

// How many places come before the candidate k.
pub fn rank_of(words: &[u32], k: u64) -> usize
    requires { IsWords words.now }
    ensures { (result ≡ rank (places_of words.now) k) × (result ≤ most_places) }
{
    let (rows, _) = words.as_chunks::<ROW_WORDS>();
    rows.partition_point(
        |row| -> bool
            ensures { result ≡ before (row_at row.now) k 0 }
        {
            let row = Row::from(*row);
            row.mark != 0 && row.key() < k
        },
    )
}
