// The masks without collision, sifted by the products of all pairs of prefixes: X, a word for each difference, not 0 where it was
// met, and Y, the bits that were added.
ghost use Rattle.std.specs.Prelude.{◌≡◌, not, ◌||◌, ◌<◌, eqb};
ghost use Rattle.std.specs.Int.Bits.{bit_and};
ghost use Rattle.logic.specs.Every.{all_b};
ghost use Rattle.sizes.specs.Sizes.{cell_count};
ghost use Rattle.masks.specs.Prefix.{apart};
ghost use Rattle.masks.specs.Mask.{free_b};
ghost use Rattle.masks.specs.Sieve.{held_in, passes as passesBy, Sifted};

use super::prefix::Prefix;
use sizes::{CELL_COUNT, SLOT_END};

// ---- the products

// The pair of s and t taken into X and Y.
fn mark(xs: &mut [u32; CELL_COUNT], y: u32, s: Prefix, t: Prefix) -> u32
    requires { y < cell_count }
    ensures { Sifted xs.old xs.new y result (λ m. apart m s.slot t.slot) }
{
    let x = s.parted(t);
    if x == 0 {
        return y | s.added(t);
    }
    xs[x as usize] = 1;
    y
}

// The pairs of s with the prefixes before it.
fn against(held: &[u32; SLOT_END], xs: &mut [u32; CELL_COUNT], from: u32, s: Prefix) -> u32
    requires { from < cell_count }
    ensures { Sifted xs.old xs.new from result
        (λ m. all_b (λ t. not (held_in held.now t) || apart m s.slot t) s.slot) }
{
    let mut y = from;
    for slot in 1..s.slot {
        if held[slot] != 0 {
            y = mark(xs, y, s, Prefix { slot });
        }
    }
    y
}

// All pairs.
pub(crate) fn products(held: &[u32; SLOT_END], xs: &mut [u32; CELL_COUNT]) -> u32
    ensures { Sifted xs.old xs.new 0 result (free_b (held_in held.now)) }
{
    let mut y: u32 = 0;
    for slot in 1..SLOT_END {
        if held[slot] != 0 {
            y = against(held, xs, y, Prefix { slot });
        }
    }
    y
}

// ---- the test

// A mask has a bit of the difference x, if that was met.
fn met(seen: u32, m: u32, x: u32) -> bool
    ensures { result ≡ (eqb seen 0 || not (eqb (bit_and m x) 0)) }
{
    seen == 0 || m & x != 0
}

// A mask without collision, by the products.
pub(crate) fn passes(xs: &[u32; CELL_COUNT], y: u32, m: u32) -> bool
    ensures { result ≡ passesBy xs.now y m }
{
    if m & y != y {
        return false;
    }
    for x in 0..CELL_COUNT {
        if !met(xs[x], m, x as u32) {
            return false;
        }
    }
    true
}
