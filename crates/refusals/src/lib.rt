// Why a call refuses, as documents 01 and 02 number it: each number by a name.
#![tactic(auto)]

ghost use Rattle.std.specs.Prelude.{◌≡◌, ◌≤◌};
ghost use Rattle.refusals.specs.Number.{number};

#[derive(Clone, Copy, Debug, PartialEq, Eq)]
pub enum Refusal {
    // a number of words that is not that of a table
    Misfit = 1,
    // words that are no table, no front or no copy, or that bytes are no list
    Foreign = 2,
    // a length that no address has
    Length = 3,
    // a bit after the length is set
    Stray = 4,
    // a hop that is 0 or over 65,535
    Hop = 5,
    // the feed has no candidate there
    Absent = 7,
    // no array is free
    Full = 8,
    // a buffer, or words lent, with too little room
    Short = 9,
    // a feed that is not 1 to 4
    Feed = 10,
    // resolving: no route, no entry for a hop, no interface in four lookups
    NoRoute = 20,
    NoEntry = 21,
    NoInterface = 22,
    // the shortest list: no default route, a winning hop over 32
    NoDefault = 23,
    HighHop = 24,
}

impl Refusal {
    // Its number in the documents, in replies and in C.
    pub fn number(self) -> u32
        ensures { (result ≡ number self) × (result ≤ 24) }
    {
        self as u32
    }
}
