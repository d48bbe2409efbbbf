// The arrays of a table compressed by masks: the mask and the place of each, and its entries.
#![tactic(auto)]

pub mod flags; // the prefixes of an array
pub mod places; // the masks of all arrays, and where each begins
pub mod fill; // one array laid out
