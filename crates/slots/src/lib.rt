// A slot that holds a candidate for each feed: four words of a page.
#![tactic(auto)]

pub mod blank; // words that are 0
pub mod word; // one word: preference and hop, or none
pub mod slot; // the four words of a slot, and which of them wins
pub mod check; // all slots of a page
