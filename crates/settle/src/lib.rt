// The blocks of one array, kept right: each cell without a link has in its word how many bits of the array an answer there may be
// remembered for.
// kept: `&mut [u32]` to write: of an array that std's `as_mut_array` lends a caller cannot prove what the words end as.
#![tactic(auto)]

pub mod part; // a part of the array: blocks written, and found from below
pub mod slot; // a slot set, taken or freed
pub mod link; // a link set or cut
pub mod check; // whether all blocks are right
