// The sizes of a table, of an array, of a cell's word and of a tag: those of specs/Sizes, for the code.
#![tactic(auto)]

// The words of an array, and of the header before the first.
pub const ARRAY_WORDS: usize = 3072;
// The arrays of a table at most.
pub const MOST_ARRAYS: usize = 4096;
// The words of a table of one array.
pub const LEAST_WORDS: usize = 6144;
// The words of a table of the most arrays.
pub const MOST_WORDS: usize = 12585984;

// The words of a slot, one for each feed: those of slot s of an array begin at SLOT_WORDS * s.
pub const SLOT_WORDS: usize = 4;
// The last slot of an array: they have the numbers from 1 to this one.
pub const LAST_SLOT: usize = 511;
// One past the last slot.
pub const SLOT_END: usize = 512;
// The test for a bare array looks at the slots past the first so many at a time, ..
pub const SLOT_STRIDE: usize = 34;
// .. and so often.
pub const SLOT_STRIDES: usize = 15;
// How many cells an array has.
pub const CELL_COUNT: usize = 256;
// The first cell's word in an array.
pub const CELLS_AT: usize = 2048;
// Slot CELL_SLOTS + i is the longest above cell i.
pub const CELL_SLOTS: usize = 256;
// How many words the slots and the cells are, from the first slot's on.
pub const BODY_WORDS: usize = 2300;
// The total of slot s is word TOTALS_AT + s of an array. There is no slot 0, and the word at TOTALS_AT has no use.
pub const TOTALS_AT: usize = 2304;
// The slots that stand above two others: from 1 to this one.
pub const INNER_SLOTS: usize = 255;
// The word of the root's first slot, which is that of length 0.
pub const ROOT_SLOT: usize = 3076;

// A cell's word is its mark times this, ..
pub const MARK_UNIT: u32 = 268435456;
// .. its hop times this, and the array below, less 1; where the mark is 0 there is none, ..
pub const LINK_BOUND: u32 = 4096;
// .. and an in-array length times this, and the block.
pub const BLOCK_BOUND: u32 = 16;
// A best is an in-array length times this, and a hop, which is below it.
pub const HOP_BOUND: u32 = 65536;
// One past the bests of a cell, whose in-array lengths are at most 8.
pub const BEST_BOUND: u32 = 589824;

// A tag is its parent times this, ..
pub const PARENT_UNIT: u32 = 8192;
// .. its cell times this, and one more than its level.
pub const LEVEL_BOUND: u32 = 32;

// How many arrays a group of the header counts.
pub const PER_GROUP: usize = 8;
// How many groups the header counts.
pub const GROUP_COUNT: usize = 512;
// The search for a free array passes full groups, so many at once, ..
pub const GROUP_STRIDE: usize = 8;
// .. of so many arrays.
pub const STRIDE_ARRAYS: usize = 64;
// The header's first word after the groups.
pub const REST_AT: usize = 513;
// How many words of the header are left from there: they are 0.
pub const REST_WORDS: usize = 2559;
