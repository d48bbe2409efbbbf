// The two passes over a table's slots that make the shortest list: the sets of hops from the longest prefixes up, kept in a lent
// scratch, one word a slot, then the routes from the shortest prefix down.
// kept: slot and bits are no struct, since every clause would grow: `seat.slot` and `seat.bits`.
#![tactic(auto)]

pub mod set; // a set of hops as a word
pub mod half; // where the lower half of a prefix stands
pub mod small; // whether all hops fit a set
pub mod up; // the sets, from below
pub mod down; // the routes, from above
