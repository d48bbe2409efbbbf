// A candidate's place in a front's words: found, charged for an accepted withdrawal, and with something kept.
#![tactic(auto)]

ghost use Rattle.std.specs.Prelude.{◌≡◌, ◌≢◌, ◌+◌, ◌*◌, ◌<◌, ◌/◌, ◌%◌, ◌^◌, ◌≤◌, Some, MatchOption};
ghost use Rattle.candidates.specs.Keyed.{put};
ghost use Rattle.candidates.specs.Candidate.{place};
ghost use Rattle.front.specs.Place.{placed, key, mark_at, kept_of, most_penalty};
ghost use Rattle.front.specs.Front.{charged, charge as chargeOn, keeping};
ghost use Rattle.rows.specs.Row.{row, mark_of, places_of, IsWords};
ghost use Rattle.rows.specs.Code.{row_of};
ghost use Rattle.rows.specs.declared.Row.{Row};
ghost use Rattle.charge.specs.Calls.{Became, Found, Charges, Keeps};
ghost use Rattle.charge.specs.Code.{mark_in, kept_in};

use rows::{LAST_PLACE, MOST_PLACES, Row, row_at};

// A prefix of a feed.
#[derive(Clone, Copy, Debug, PartialEq, Eq)]
pub struct Candidate {
    pub address: u32,
    pub length: u32,
    pub feed: u32,
}

// Where a candidate stands, or would stand, with the row that it has there, if it has a place.
#[derive(Clone, Copy)]
pub struct Spot {
    pub at: usize,
    pub row: Option<Row>,
    ghost used: { (r : Row) → row ≡ Some r → r.mark ≢ 0 },
}

impl Candidate {
    // As one number, the order of the rows.
    fn key(self) -> u64
        ensures { result ≡ place self.address self.length self.feed }
    {
        (self.address as u64 * 256 + self.length as u64) * 8 + self.feed as u64
    }

    // Its row, with the last two words.
    fn row(self, mark: u32, kept: u32) -> Row
        requires { self.length * 8 + self.feed < 2 ^ 32 }
        ensures { row_of result ≡ row self.address (self.length * 8 + self.feed) mark kept }
    {
        Row {
            address: self.address,
            who: self.length * 8 + self.feed,
            mark,
            kept,
        }
    }
}

impl Spot {
    // What is kept of a candidate that is held back, 0 for nothing.
    pub fn held_back(self) -> Option<u32>
        ensures { MatchOption result (mark_in self.row % 2 ≢ 1)
            (λ kept. (mark_in self.row % 2 ≡ 1) × (kept ≡ kept_in self.row)) }
    {
        match self.row {
            Some(row) if row.mark % 2 == 1 => Some(row.kept),
            _ => None,
        }
    }
}

pub fn find(words: &[u32], candidate: Candidate) -> Spot
    requires { IsWords words.now }
    ensures { Found words.now (place candidate.address candidate.length candidate.feed)
        result.at (mark_in result.row) (kept_in result.row) }
{
    let k = candidate.key();
    let at = shelf::rank_of(words, k);
    if at == MOST_PLACES {
        return Spot { at, row: None };
    }
    let row = row_at(words, at);
    if row.mark == 0 || row.key() != k {
        return Spot { at, row: None };
    }
    Spot { at, row: Some(row) }
}

// 1,000 more on a penalty, up to 12,000; over 3,000 it is held back.
fn raised(mark: u32) -> u32
    requires { mark / 2 ≤ most_penalty }
    ensures { (mark_of result 0 ≡ charged (mark_of mark 0)) × (1 ≤ result) }
{
    let n = (mark / 2 + 1000).min(12000);
    if mark % 2 == 1 || n > 3000 {
        2 * n + 1
    } else {
        2 * n
    }
}

// An accepted withdrawal: the candidate is charged in its place, or in a new one if one is free.
pub fn charge(words: &mut [u32], spot: Spot, candidate: Candidate)
    requires { Charges words.old candidate.address candidate.length candidate.feed
        spot.at (mark_in spot.row) (kept_in spot.row) }
    ensures { Became words.new
        (chargeOn candidate.address candidate.length candidate.feed (places_of words.old)) }
{
    match spot.row {
        Some(row) => {
            let mark = raised(row.mark);
            shelf::store(words, spot.at, candidate.row(mark, 0));
        }
        None => {
            if row_at(words, LAST_PLACE).mark == 0 {
                shelf::insert(words, spot.at, candidate.row(raised(0), 0));
            }
        }
    }
}

// An announcement of a candidate that is held back.
pub fn keep(words: &mut [u32], spot: Spot, candidate: Candidate, hop: u32, preference: u32)
    requires { Keeps words.old candidate.address candidate.length hop candidate.feed preference
        spot.at (mark_in spot.row) (kept_in spot.row) }
    ensures { Became words.new (put key (placed candidate.address candidate.length candidate.feed
        (keeping (mark_at (places_of words.old)
        (place candidate.address candidate.length candidate.feed)) (kept_of preference hop)))
        (places_of words.old)) }
{
    if let Some(row) = spot.row {
        shelf::store(
            words,
            spot.at,
            candidate.row(row.mark, preference * 65536 + hop),
        );
    }
}
