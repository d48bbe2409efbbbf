// Whether all winning hops fit a set.
ghost use Rattle.std.specs.Prelude.{◌≡◌};
ghost use Rattle.sweep.specs.Walk.{small_at};
ghost use Rattle.sweep.specs.Asked.{Looks};

use super::half::lower;
use sizes::SLOT_WORDS;
use words::total::total_in;

// The highest hop of a set.
const MOST_HOP: u32 = 32;

// No winning hop of the prefix in `slot`, with some bits below it, and of all below it is over 32. A slot whose total is 0 is
// passed over.
pub fn small_hops(words: &[u32], slot: usize, bits: usize) -> bool
    requires { Looks words.now slot bits }
    ensures { result ≡ small_at words.now bits slot }
{
    if total_in(words, slot) == 0 {
        return true;
    }
    let own = slots::slot::hop_at(words, slot);
    if own > MOST_HOP {
        return false;
    }
    let Some(low) = lower(words, slot, bits) else {
        return true;
    };
    let high = low + SLOT_WORDS;
    let rest = bits - 1;
    small_hops(words, low, rest) && small_hops(words, high, rest)
}
