// Paths of arrays down an address, a level for each of its bytes: how far one goes, the arrays that it lacks gained, those left
// empty released.
#![tactic(auto)]

ghost use Rattle.std.specs.Prelude.{◌≡◌, ◌≢◌, true, ◌+◌, ◌-◌, ◌*◌, ◌^◌, ◌<◌, ◌≤◌, length as size};
ghost use Rattle.sizes.specs.Sizes.{most_words, cell_count, level_bound, array_at};
ghost use Rattle.slots.specs.Word.{IsFeed};
ghost use Rattle.address.specs.Address.{IsAddress};
ghost use Rattle.numbers.specs.Number.{number};
ghost use Rattle.paths.specs.Way.{rung_b, Way};
ghost use Rattle.paths.specs.Hung.{Ready, GrownAny};
ghost use Rattle.paths.specs.Told.{HasWalked, HasSought, HasOpened};
ghost use Rattle.words.specs.Words.{arrays_of};
ghost use Rattle.words.specs.Size.{Bounded};
ghost use Rattle.words.specs.TableBut.{Table};
ghost use Rattle.words.specs.Climbing.{Climbing};
ghost use Rattle.paths.specs.Opens.{fit_b};
ghost use Rattle.paths.specs.Shed.{PrunedAny};
ghost use Rattle.paths.specs.Held.{word_found};

use address::Place;
use array::cell::{best_in, block_in};
use array::tag::{parent_in, tag_of};
use refusals::Refusal;
use sizes::BEST_BOUND;

// An array and its level.
#[derive(Clone, Copy, Debug, PartialEq, Eq)]
pub struct Stop {
    pub array: usize,
    pub level: usize,
}

// Array b, to which the link of cell y of the array at s leads, is one of the words whose tag names the cell and the level, and
// the best of the cell is in its range. A caller may know it.
fn hangs(words: &[u32], s: Stop, y: usize, b: usize, known: bool) -> bool
    requires { Bounded words.now × (array_at (s.array + 1) ≤ size words.now)
        × (y < cell_count) × (s.level + 2 ≤ level_bound) × ((arrays_of words.now).link s.array y ≡ b)
        × ((known ≡ true) → rung_b words.now s.array y s.level ≡ true) }
    ensures { result ≡ rung_b words.now s.array y s.level }
{
    known
        || b <= words::size::arrays_in(words)
            && words::part::tag(words, b) == tag_of(s.array, y, s.level as u32 + 2)
            && best_in(words::part::cell(words, s.array, y)) < BEST_BOUND
}

// The deepest array on the path of an address, down to level k, if the path test is passed.
fn walk_down(words: &[u32], address: &[u8], k: usize, known: bool) -> Option<Stop>
    requires { Bounded words.now × (k < size address.now) × (size address.now < level_bound)
        × ((known ≡ true) → Table (size address.now) words.now) }
    ensures { HasWalked (size address.now) words.now (number address.now) k result }
{
    if words::part::tag(words, 1) != 1 {
        return None;
    }
    let mut a = 1;
    for j in 0..k {
        let s = Stop { array: a, level: j };
        let y = address::byte_at(address, j);
        let Some(b) = words::below(words, a, y) else {
            return Some(s);
        };
        if !hangs(words, s, y, b, known) {
            return None;
        }
        a = b;
    }
    Some(Stop { array: a, level: k })
}

// A feed's word at a place whose path stops at s, 0 where it has no candidate there.
// kept: 0 is no candidate in the words themselves, and `word_found` and `Sought` of specs/Held say it so.
fn word_at(words: &[u32], s: Stop, p: Place, feed: usize) -> u32
    requires { (array_at (s.array + 1) ≤ size words.now) × (p.depth ≤ 8) × (p.value < 2 ^ p.depth) × IsFeed feed }
    ensures { result ≡ word_found words.now s.array s.level p.level p.depth p.value feed }
{
    if s.level != p.level {
        return 0;
    }
    let slot = array::place::slot_of(p.depth, p.value);
    words::part::word(words, s.array, slot, feed)
}

// A candidate that was sought: where its prefix stands, where the prefix's path stops, and its word, 0 where it is not held.
#[derive(Clone, Copy, Debug, PartialEq, Eq)]
pub struct Found {
    pub place: Place,
    pub stop: Stop,
    pub word: u32,
}

// Refused where the path test fails. A caller who knows the words to be a table spares it.
pub fn find(
    words: &[u32],
    address: &[u8],
    length: u32,
    feed: usize,
    known: bool,
) -> Result<Found, Refusal>
    requires { Bounded words.now × IsAddress address.now
        × (length ≤ 8 * size address.now) × IsFeed feed × ((known ≡ true) → Table (size address.now) words.now) }
    ensures { HasSought (size address.now) words.now (number address.now) length feed result }
{
    let place = address::place_of(address, length);
    let stop = walk_down(words, address, place.level, known).ok_or(Refusal::Foreign)?;
    let word = word_at(words, stop, place, feed);
    Ok(Found { place, stop, word })
}

// The arrays down to level k on the path of an address that stops at s, the free ones of a list hung one below the other. The
// last is returned.
fn hang_path(words: &mut [u32], address: &[u8], s: Stop, k: usize, fresh: &[u32]) -> usize
    requires { Ready (size address.now) words.old (number address.now) s.level k s.array fresh.now }
    ensures { GrownAny (size address.now) words.old words.new
        (number address.now) s.level k s.array result × (result < 4097) }
{
    let mut b = s.array;
    for i in s.level..k {
        let y = address::byte_at(address, i);
        let f = fresh[i - s.level] as usize;
        words::gain(words, b, y, f);
        b = f;
    }
    b
}

// Cell y of array a is fit to take a link: its best and its block are in their ranges. A caller may know it.
fn fits(words: &[u32], a: usize, y: usize, known: bool) -> bool
    requires { (array_at (a + 1) ≤ size words.now) × (size words.now ≤ most_words) × (y < cell_count)
        × ((known ≡ true) → fit_b words.now a y ≡ true) }
    ensures { result ≡ fit_b words.now a y }
{
    if known {
        return true;
    }
    let word = words::part::cell(words, a, y);
    best_in(word) < BEST_BOUND && block_in(word) <= 8
}

// The array of level k on the path of an address that stops at s, with those above it gained where they are missing. Refused, and
// nothing is changed, where there is no room, or the words are no table there. A caller who knows them to be a table spares the
// tests.
pub fn extend(
    words: &mut [u32],
    address: &[u8],
    s: Stop,
    k: usize,
    known: bool,
) -> Result<usize, Refusal>
    requires { Bounded words.old × IsAddress address.now
        × (k < size address.now) × Way (size address.now) words.old (number address.now) k s.level s.array
        × ((known ≡ true) → Table (size address.now) words.old) }
    ensures { HasOpened (size address.now) words.old words.new
        (number address.now) s.level k s.array result }
{
    let j = s.level;
    if j == k {
        return Ok(s.array);
    }
    let y = address::byte_at(address, j);
    if !fits(words, s.array, y, known) {
        return Err(Refusal::Foreign);
    }
    let n = words::size::arrays_in(words);
    let m = words[0] as usize;
    if n < m + (k - j) {
        return Err(Refusal::Full);
    }
    let fresh = words::frees(words, k - j, known).ok_or(Refusal::Foreign)?;
    Ok(hang_path(words, address, s, k, &fresh))
}

// Array a, and those above it, released while they are empty.
pub fn prune(words: &mut [u32], a: usize)
    requires { Climbing words.old a × (size words.old ≤ most_words) }
    ensures { PrunedAny words.old words.new a }
{
    let mut b = a;
    while b != 1 && words::empty(words, b) {
        let p = parent_in(words::part::tag(words, b));
        words::release(words, b);
        b = p;
    }
}
