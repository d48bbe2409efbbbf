// The pass from below: the set of every prefix that has a slot, kept in the scratch at the slot's first word.
ghost use Rattle.std.specs.Prelude.{◌≡◌};
ghost use Rattle.sweep.specs.Walk.{spread_at};
ghost use Rattle.sweep.specs.Asked.{Spreads, KeepsSets, HasKept};

use super::half::lower;
use super::set::{join, price, single, under};
use sizes::SLOT_WORDS;
use words::total::total_in;

// The set of a prefix, and for how many prefixes in it the halves have no hop in common.
#[derive(Clone, Copy, Debug, PartialEq, Eq)]
pub struct Part {
    pub set: u32,
    pub cost: usize,
}

// Keeps one set for the prefix in `slot`, with some bits below it, and for all below it.
fn spread(words: &[u32], slot: usize, bits: usize, set: u32, scratch: &mut [u32])
    requires { Spreads words.now slot bits scratch.old }
    ensures { scratch.new ≡ spread_at words.now bits slot set scratch.old }
{
    if let Some(low) = lower(words, slot, bits) {
        let high = low + SLOT_WORDS;
        let rest = bits - 1;
        spread(words, low, rest, set, scratch);
        spread(words, high, rest, set, scratch);
    }
    scratch[slot] = set;
}

// Keeps the sets of the prefix in `slot`, with some bits below it, and of all below it, where a hop comes from above. Where the
// slot's total is 0 they are all one, and the words of the slots are not read.
pub fn keep_sets(words: &[u32], slot: usize, bits: usize, above: u32, scratch: &mut [u32]) -> Part
    requires { KeepsSets words.now slot bits above scratch.old }
    ensures { HasKept words.now slot bits above scratch.old
        result.set result.cost scratch.new }
{
    if total_in(words, slot) == 0 {
        let same = single(above);
        spread(words, slot, bits, same, scratch);
        return Part { set: same, cost: 0 };
    }
    let hop = under(slots::slot::hop_at(words, slot), above);
    let Some(low) = lower(words, slot, bits) else {
        let set = single(hop);
        scratch[slot] = set;
        return Part { set, cost: 0 };
    };
    let high = low + SLOT_WORDS;
    let rest = bits - 1;
    let x = keep_sets(words, low, rest, hop, scratch);
    let y = keep_sets(words, high, rest, hop, scratch);
    let set = join(x.set, y.set);
    let cost = x.cost + y.cost + price(x.set, y.set);
    scratch[slot] = set;
    Part { set, cost }
}
