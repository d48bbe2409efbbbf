// A front as a whole: cleared, and checked, with the numbers of its places and of the candidates that are held back.
ghost use Rattle.std.specs.Prelude.{◌≡◌, ◌≤◌, length};
ghost use Rattle.front.specs.Place.{most_places};
ghost use Rattle.front.specs.Seen.{held_in, check_front};
ghost use Rattle.rows.specs.Row.{places_of, IsWords};
ghost use Rattle.refusals.specs.Number.{fault};
ghost use Rattle.damping.specs.View.{seen_front};
ghost use Rattle.damping.specs.Held.{counts_of, check_answer, HasCleared};

use super::front_fault;
use refusals::Refusal;
use rows::{FRONT_WORDS, row_at};

// The numbers of places and of candidates held back.
#[derive(Clone, Copy, Debug, PartialEq, Eq)]
pub struct Held {
    pub places: u32,
    pub back: u32,
}

// How many places there are: those before a number that no candidate reaches.
pub(crate) fn count(front: &[u32]) -> usize
    requires { IsWords front.now }
    ensures { (result ≡ length (places_of front.now)) × (result ≤ most_places) }
{
    shelf::rank_of(front, 1 << 43)
}

// The check of words that are a front.
pub(crate) fn held_in(front: &[u32]) -> Held
    requires { IsWords front.now }
    ensures { counts_of result ≡ held_in (places_of front.now) }
{
    let n = count(front);
    let mut back = 0;
    for i in 0..n {
        back += row_at(front, i).mark % 2;
    }
    Held {
        places: n as u32,
        back,
    }
}

// The check of any words: refused where they are no front.
pub fn check(front: &[u32]) -> Result<Held, Refusal>
    ensures { check_answer result ≡ check_front (seen_front front.now) }
{
    front_fault(front)?;
    Ok(held_in(front))
}

// A front with no place, whatever the words were: refused for a wrong number of them.
pub fn clear(front: &mut [u32]) -> Result<(), Refusal>
    ensures { HasCleared front.old front.new (fault result) }
{
    if front.len() != FRONT_WORDS {
        return Err(Refusal::Foreign);
    }
    release::clear(front);
    Ok(())
}
