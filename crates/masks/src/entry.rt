// The prefix of an index.
ghost use Rattle.std.specs.Prelude.{◌≡◌, ◌<◌};
ghost use Rattle.logic.specs.Nonzero.{nonzero};
ghost use Rattle.sizes.specs.Sizes.{slot_end};
ghost use Rattle.masks.specs.On.{fits as fits_by};
ghost use Rattle.masks.specs.Entry.{entry as entry_of};
ghost use Rattle.masks.specs.Sieve.{held_in};

use super::prefix::Prefix;
use sizes::SLOT_END;

// A byte may have a prefix, as far as a mask tells.
fn fits(m: u32, y: u32, prefix: Prefix) -> bool
    ensures { result ≡ fits_by m y prefix.slot }
{
    (prefix.value() ^ y) & (m & prefix.reach()) == 0
}

// The longest prefix that a byte may have, as far as a mask tells: its slot, if there is one.
pub fn entry(held: &[u32; SLOT_END], m: u32, y: u32) -> Option<usize>
    ensures slot { result ≡ nonzero (entry_of (held_in held.now) m y) }
    ensures small { entry_of (held_in held.now) m y < slot_end }
{
    for slot in (1..SLOT_END).rev() {
        if held[slot] != 0 && fits(m, y, Prefix { slot }) {
            return Some(slot);
        }
    }
    None
}
