// The mask of an array, and how many entries it leaves.
ghost use Rattle.std.specs.Prelude.{◌≡◌, ◌^◌, ◌<◌, ◌≤◌};
ghost use Rattle.std.specs.Int.Count.{ones};
ghost use Rattle.sizes.specs.Sizes.{cell_count};
ghost use Rattle.masks.specs.Mask.{mask_of};
ghost use Rattle.masks.specs.Sieve.{held_in};

use super::FULL_MASK;
use super::sieve::{passes, products};
use sizes::{CELL_COUNT, SLOT_END};

// Of the masks without collision the one with fewest set bits, then the lowest.
pub fn mask(held: &[u32; SLOT_END]) -> u32
    ensures { (result ≡ mask_of (held_in held.now)) × (result < cell_count) }
{
    let mut xs = [0; CELL_COUNT];
    let y = products(held, &mut xs);
    let mut best = FULL_MASK;
    for m in 0..FULL_MASK {
        if m.count_ones() < best.count_ones() && passes(&xs, y, m) {
            best = m;
        }
    }
    best
}

// The entries of an array compressed by a mask.
pub fn entries(mask: u32) -> usize
    requires { mask < cell_count }
    ensures { (result ≡ 2 ^ ones mask) × (1 ≤ result) × (result ≤ cell_count) }
{
    1 << mask.count_ones()
}
