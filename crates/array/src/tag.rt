// A tag in one word: the parent, the cell and one more than the level, put into it and each found in it.
ghost use Rattle.std.specs.Prelude.{◌≡◌, ◌<◌, ◌≤◌};
ghost use Rattle.sizes.specs.Sizes.{most_arrays, cell_count, level_bound};
ghost use Rattle.array.specs.Tag.{tag_of, parent_in, cell_in, level_in};

use sizes::{CELL_COUNT, LEVEL_BOUND, PARENT_UNIT};

// The tag of an array below cell i of array p; k is one more than its level.
pub fn tag_of(p: usize, i: usize, k: u32) -> u32
    requires { (p ≤ most_arrays) × (i < cell_count) × (k ≤ level_bound) }
    ensures { result ≡ tag_of p i k }
{
    p as u32 * PARENT_UNIT + i as u32 * LEVEL_BOUND + k
}

// The number of the parent.
pub fn parent_in(tag: u32) -> usize
    ensures { result ≡ parent_in tag }
{
    (tag / PARENT_UNIT) as usize
}

// The cell of the parent.
pub fn cell_in(tag: u32) -> usize
    ensures { (result ≡ cell_in tag) × (result < cell_count) }
{
    (tag / LEVEL_BOUND) as usize % CELL_COUNT
}

// One more than the level.
pub fn level_in(tag: u32) -> u32
    ensures { (result ≡ level_in tag) × (result < level_bound) }
{
    tag % LEVEL_BOUND
}
