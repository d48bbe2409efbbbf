// The index of a byte under a mask, and a byte of each index.
ghost use Rattle.std.specs.Prelude.{◌≡◌, ◌^◌, ◌<◌, ◌≤◌};
ghost use Rattle.std.specs.Int.Count.{ones};
ghost use Rattle.sizes.specs.Sizes.{cell_count};
ghost use Rattle.masks.specs.Index.{index as index_of, scatter};
ghost use Rattle.masks.specs.Steps.{placed as placed_at};
ghost use Rattle.masks.specs.Spread.{low as low_of, left as left_of};

use super::FULL_MASK;

// The place p, if the byte has the bit b.
fn placed(y: u32, b: u32, p: usize) -> usize
    ensures { (result ≡ placed_at y b p) × (result ≤ p) }
{
    if y & b == 0 { 0 } else { p }
}

// The bits of a byte at the set bits of a mask, as a number. The mask of all bits, that of the first array, gives the byte
// itself; else the set bits are gone through, the lowest first, as most masks have few.
pub fn index(m: u32, y: u32) -> usize
    requires { (m < cell_count) × (y < cell_count) }
    ensures { (result ≡ index_of m y) × (result < 2 ^ ones m) × (result < cell_count) }
{
    if m == FULL_MASK {
        return y as usize;
    }
    let mut left = m;
    let mut r: usize = 0;
    let mut p: usize = 1;
    while left != 0 {
        let rest = left & (left - 1);
        r += placed(y, left ^ rest, p);
        p = p * 2;
        left = rest;
    }
    r
}

// The bit of v that comes next, if the mask has this place.
fn low(m: u32, v: u32) -> u32
    ensures { (result ≡ low_of m v) × (result < 2) }
{
    if m % 2 == 0 { 0 } else { v % 2 }
}

// What is left of v.
fn left(m: u32, v: u32) -> u32
    ensures { result ≡ left_of m v }
{
    if m % 2 == 0 { v } else { v / 2 }
}

// The byte that has the bits of an index at the set bits of a mask, and 0 elsewhere.
pub fn spread(mask: u32, index: u32) -> u32
    ensures { (result ≡ scatter 8 mask index) × (result < cell_count) }
{
    let mut m = mask;
    let mut v = index;
    let mut r: u32 = 0;
    for k in 0..8u32 {
        r += low(m, v) << k;
        v = left(m, v);
        m /= 2;
    }
    r
}
