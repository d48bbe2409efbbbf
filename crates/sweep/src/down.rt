// The pass from above: the routes that the sets leave, written as kind 1 records in the order of writing out.
ghost use Rattle.numbers.specs.Wrote.{Wrote};
ghost use Rattle.sweep.specs.Walk.{routes_at};
ghost use Rattle.sweep.specs.Asked.{bytes_of, bytes_own, Puts, PutsRoutes};

use super::half::lower;
use super::set::{choose, under};
use sizes::SLOT_WORDS;
use words::total::total_in;
use writing::put_all;

// The record of the prefix v, with some bits below it, at `at`, unless the hop is 0; returns the place after it.
fn put(hop: u32, v: usize, bits: usize, buffer: &mut [u8], at: usize) -> usize
    requires { Puts hop v bits buffer.old at }
    ensures { Wrote buffer.old at (bytes_own bits v hop) result buffer.new }
{
    if hop == 0 {
        return at;
    }
    let address = (v << bits) as u32;
    let [a, b, c, d] = address.to_be_bytes();
    let [.., high, low] = hop.to_be_bytes();
    let record = [1, a, b, c, d, ((32 - bits) % 256) as u8, high, low];
    put_all(&record, buffer, at)
}

// The records of the prefix v in `slot`, with some bits below it, and of all below it, where a hop comes from above; returns the
// place after them. Below a slot whose total is 0 every set is the slot's own, so that there are none.
pub fn put_routes(
    words: &[u32],
    scratch: &[u32],
    slot: usize,
    v: usize,
    bits: usize,
    above: u32,
    buffer: &mut [u8],
    at: usize,
) -> usize
    requires { PutsRoutes words.now scratch.now slot v bits above buffer.old at }
    ensures { Wrote buffer.old at
        (bytes_of (routes_at words.now scratch.now bits slot v above)) result buffer.new }
{
    let hop = choose(scratch[slot], above);
    let p = put(hop, v, bits, buffer, at);
    if total_in(words, slot) == 0 {
        return p;
    }
    let Some(low) = lower(words, slot, bits) else {
        return p;
    };
    let next = under(hop, above);
    let high = low + SLOT_WORDS;
    let x = 2 * v;
    let y = 2 * v + 1;
    let rest = bits - 1;
    let q = put_routes(words, scratch, low, x, rest, next, buffer, p);
    put_routes(words, scratch, high, y, rest, next, buffer, q)
}
