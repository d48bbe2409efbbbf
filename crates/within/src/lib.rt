// How many held prefixes lie inside a given one: a walk down to the given one's array, and one total. It reads one word a level
// and checks nothing else.
#![tactic(auto)]

ghost use Rattle.std.specs.Prelude.{◌≡◌, ◌+◌, ◌*◌, ◌<◌, ◌≤◌, length as size};
ghost use Rattle.sizes.specs.Sizes.{slot_end, level_bound};
ghost use Rattle.inside.specs.Seen.{within_on};
ghost use Rattle.numbers.specs.Number.{number};
ghost use Rattle.words.specs.Words.{totals_of, array_count};
ghost use Rattle.words.specs.Table.{seen};
ghost use Rattle.words.specs.CheckReflects.{Fits};
ghost use Rattle.within.specs.Walk.{read_at, walk_from, walk, walked, within_seen};
ghost use Rattle.within.specs.Answer.{within_answer};

use address::Address;
use refusals::Refusal;
use sizes::LAST_SLOT;
use std::convert::AsSlice;

// The total of slot s of array a, if it is in its range: the arrays have no more slots.
fn read(words: &[u32], arrays: usize, a: usize, s: usize) -> Result<u32, Refusal>
    requires { Fits (size words.now) × (arrays ≡ array_count words.now) × (a ≤ arrays) × (s < slot_end) }
    ensures { within_answer result ≡ read_at words.now s a }
{
    let n = words::total::total(words, a, s);
    if n as usize > LAST_SLOT * arrays {
        return Err(Refusal::Foreign);
    }
    Ok(n)
}

// The walk down to level k, and the total of slot s there.
fn descend(words: &[u32], address: &[u8], k: usize, s: usize) -> Result<u32, Refusal>
    requires { Fits (size words.now) × (k < size address.now) × (s < slot_end) }
    ensures { within_answer result
        ≡ walk_from (size address.now) words.now (number address.now) s k k 1 }
{
    let arrays = words::size::arrays_in(words);
    let mut a: usize = 1;
    for j in 0..k {
        let Some(next) = words::below(words, a, address::byte_at(address, j)) else {
            return Ok(0);
        };
        if next > arrays {
            return Err(Refusal::Foreign);
        }
        a = next;
    }
    read(words, arrays, a, s)
}

// How many prefixes lie inside the one of an address's first bits: refused with the first of 1, 3, 4 and 2 that applies.
#[tactic(auto, using(crate::proofs::Laws::walk_seen, crate::proofs::Laws::stands_slot))]
pub fn within_of(words: &[u32], address: &[u8], length: u32) -> Result<u32, Refusal>
    requires { (1 ≤ size address.now) × (size address.now < level_bound) }
    ensures result_value { within_answer result ≡ within_seen (size address.now) words.now
        (number address.now) length }
    ensures any_words { within_answer result ≡ walked (size address.now) words.now
        (number address.now) length }
{
    if words::size::misfit(words.len()) {
        return Err(Refusal::Misfit);
    }
    address::prefix_fault(address, length)?;
    let p = address::place_of(address, length);
    descend(
        words,
        address,
        p.level,
        array::place::slot_of(p.depth, p.value),
    )
}

// The same of an address by value, which lends its bytes.
pub fn within<A: Address>(words: &[u32], address: A, length: u32) -> Result<u32, Refusal>
    ensures result_value { within_answer result ≡ within_on (8 * A.levels) (seen A.levels words.now)
        (walk A.levels words.now (A.value address) length) (A.value address) length }
    ensures any_words { within_answer result ≡ walked A.levels words.now (A.value address) length }
{
    let bytes = address.bytes();
    within_of(words, bytes.as_slice(), length)
}
