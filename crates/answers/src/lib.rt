// Answers for C: structs of plain numbers, and how the library's answers become them. Every archive's calls use these, so that an
// update, a run or a match is one struct in all of them.
#![tactic(auto)]

ghost use Rattle.std.specs.Prelude.{◌≡◌};
ghost use Rattle.lookup.specs.Ended.{ended};
ghost use Rattle.audit.specs.Answer.{check_answer};
ghost use Rattle.replies.specs.Said.{said_reply, said_match};
ghost use Rattle.refusals.specs.Number.{said};
ghost use Rattle.answers.specs.Numbers.{refusal as refusal_of, counted, looked, totalled, updated, wrote, ran, needed, matched};

use audit::Counts;
use feed::Report;
use refusals::Refusal;
use replies::{Best, Reply};
use sizes::HOP_BOUND;

// kept: the C interface has numbers for a refusal and for found or not.

#[repr(C)]
#[derive(Clone, Copy, Debug, Default, PartialEq, Eq)]
pub struct Counted {
    pub refusal: u32,
    pub routes: u32,
    pub arrays: u32,
}

#[repr(C)]
#[derive(Clone, Copy, Debug, Default, PartialEq, Eq)]
pub struct Found {
    pub refusal: u32,
    pub found: u32,
    pub hop: u32,
    pub length: u32,
    pub block: u32,
}

#[repr(C)]
#[derive(Clone, Copy, Debug, Default, PartialEq, Eq)]
pub struct Total {
    pub refusal: u32,
    pub prefixes: u32,
}

#[repr(C)]
#[derive(Clone, Copy, Debug, Default, PartialEq, Eq)]
pub struct Updated {
    pub refusal: u32,
    pub hop: u32,
    pub cells: u32,
}

#[repr(C)]
#[derive(Clone, Copy, Debug, Default, PartialEq, Eq)]
pub struct Written {
    pub refusal: u32,
    pub bytes: u64,
}

#[repr(C)]
#[derive(Clone, Copy, Debug, Default, PartialEq, Eq)]
pub struct Ran {
    pub refusal: u32,
    pub stop: u32,
    pub consumed: u64,
    pub written: u64,
    pub accepted: u64,
    pub refused: u64,
}

#[repr(C)]
#[derive(Clone, Copy, Debug, Default, PartialEq, Eq)]
pub struct Needed {
    pub refusal: u32,
    pub words: u64,
}

#[repr(C)]
#[derive(Clone, Copy, Debug, Default, PartialEq, Eq)]
pub struct Matched {
    pub refusal: u32,
    pub found: u32,
    pub hop: u32,
    pub length: u32,
}

// ---- answers in plain numbers: the refusal's number, or 0 and the values

pub fn number(answer: Result<(), Refusal>) -> u32
    ensures { result ≡ refusal_of (said answer) }
{
    match answer {
        Ok(()) => 0,
        Err(why) => why.number(),
    }
}

impl From<Result<Counts, Refusal>> for Counted {
    ghost from_gives = { λ answer r. r ≡ counted (check_answer answer) };

    fn from(answer: Result<Counts, Refusal>) -> Counted {
        match answer {
            Ok(Counts { routes, arrays }) => Counted {
                refusal: 0,
                routes,
                arrays,
            },
            Err(why) => Counted {
                refusal: why.number(),
                ..Counted::default()
            },
        }
    }
}

// A walk's end is not told apart by cases: a branch on whether something was found would go either way, and a lookup of random
// addresses take half as long again.
// kept: speed, by that half; so it is a function of numbers and no `From` over cases.
pub fn finding(end: lookup::End) -> Found
    ensures { result ≡ looked (ended end) }
{
    if end.block > lookup::MOST_BITS {
        return Found {
            refusal: end.block - lookup::MOST_BITS,
            ..Found::default()
        };
    }
    let hop = end.best % HOP_BOUND;
    let found = u32::from(hop != 0);
    Found {
        refusal: 0,
        found,
        hop,
        length: found * (end.best / HOP_BOUND),
        block: end.block,
    }
}

impl From<Result<u32, Refusal>> for Total {
    ghost from_gives = { λ answer r. r ≡ totalled (said answer) };

    fn from(answer: Result<u32, Refusal>) -> Total {
        match answer {
            Ok(prefixes) => Total {
                refusal: 0,
                prefixes,
            },
            Err(why) => Total {
                refusal: why.number(),
                ..Total::default()
            },
        }
    }
}

// No update is found, nor nothing.
impl From<Reply> for Updated {
    ghost from_gives = { λ answer r. r ≡ updated (said_reply answer) };

    fn from(answer: Reply) -> Updated {
        match answer {
            Reply::Done(hop, cells) => Updated {
                refusal: 0,
                hop,
                cells,
            },
            Reply::Found(..) | Reply::Nothing(_) => Updated::default(),
            Reply::Refused(refusal) => Updated {
                refusal,
                ..Updated::default()
            },
        }
    }
}

// The bytes of a list written out.
impl From<Result<usize, Refusal>> for Written {
    ghost from_gives = { λ answer r. r ≡ wrote (said answer) };

    fn from(answer: Result<usize, Refusal>) -> Written {
        match answer {
            Ok(bytes) => Written {
                refusal: 0,
                bytes: bytes as u64,
            },
            Err(why) => Written {
                refusal: why.number(),
                ..Written::default()
            },
        }
    }
}

impl From<Result<Report, Refusal>> for Ran {
    ghost from_gives = { λ answer r. r ≡ ran (said answer) };

    fn from(answer: Result<Report, Refusal>) -> Ran {
        match answer {
            Ok(told) => Ran {
                refusal: 0,
                stop: told.stop,
                consumed: told.consumed as u64,
                written: told.written as u64,
                accepted: told.accepted as u64,
                refused: told.refused as u64,
            },
            Err(why) => Ran {
                refusal: why.number(),
                ..Ran::default()
            },
        }
    }
}

// The words that an engine needs.
impl From<Result<usize, Refusal>> for Needed {
    ghost from_gives = { λ answer r. r ≡ needed (said answer) };

    fn from(answer: Result<usize, Refusal>) -> Needed {
        match answer {
            Ok(words) => Needed {
                refusal: 0,
                words: words as u64,
            },
            Err(why) => Needed {
                refusal: why.number(),
                ..Needed::default()
            },
        }
    }
}

// A match of the read-only engines, which know no block.
impl From<Result<Option<Best>, Refusal>> for Matched {
    ghost from_gives = { λ answer r. r ≡ matched (said_match answer) };

    fn from(answer: Result<Option<Best>, Refusal>) -> Matched {
        match answer {
            Ok(Some(Best { hop, length })) => Matched {
                refusal: 0,
                found: 1,
                hop,
                length,
            },
            Ok(None) => Matched::default(),
            Err(why) => Matched {
                refusal: why.number(),
                ..Matched::default()
            },
        }
    }
}
