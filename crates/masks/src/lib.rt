// The mask of an array of 8 bits: found from its prefixes, and the index of a byte under it. The prefixes are lent as flags, a
// word for each slot, not 0 where it is held.
#![tactic(auto)]

pub mod prefix; // one prefix, and two
pub mod sieve; // the masks without collision
pub mod choice; // the one that is chosen, and how many entries it leaves
pub mod index; // the index of a byte, and a byte of an index
pub mod entry; // the prefix of an index

// The mask of all bits, that of the first array: it is without collision, whatever an array holds.
pub const FULL_MASK: u32 = 255;
