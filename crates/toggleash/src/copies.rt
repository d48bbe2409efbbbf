// The copy's calls: its need, its build from the bytes of a written-out list, and its lookup.
ghost use Rattle.std.specs.Prelude.{◌≡◌, List};
ghost use Rattle.routes.specs.Route.{Route, IsList};
ghost use Rattle.routes.specs.Match.{longest};
ghost use Rattle.routes.specs.Seen.{gives};
ghost use Rattle.listing.specs.Listed.{listed_in};
ghost use Rattle.lengths_build.specs.Answer.{need_on, build_answer};
ghost use Rattle.lengths.specs.Layout.{walk};
ghost use Rattle.lengths.specs.Laid.{Laid};
ghost use Rattle.answers.specs.Numbers.{needed, matched};
ghost use Rattle.toggleash.specs.Copies.{built, HasBuilt};

use answers::{Matched, Needed};
use lengths_build::Counts;
use refusals::Refusal;

#[repr(C)]
#[derive(Clone, Copy, Debug, Default, PartialEq, Eq)]
pub struct Built {
    pub refusal: u32,
    pub routes: u64,
    pub markers: u64,
}

impl From<Result<Counts, Refusal>> for Built {
    ghost from_gives = { λ answer r. r ≡ built (build_answer answer) };

    fn from(answer: Result<Counts, Refusal>) -> Built {
        match answer {
            Ok(counts) => Built {
                refusal: 0,
                routes: counts.routes as u64,
                markers: counts.markers as u64,
            },
            Err(why) => Built {
                refusal: why.number(),
                ..Built::default()
            },
        }
    }
}

// ---- the calls

pub fn toggleash_copy_need(bytes: &[u8]) -> Needed
    ensures { result ≡ needed (need_on (listed_in bytes.now)) }
{
    lengths_build::need(bytes).into()
}

pub fn toggleash_copy_build(bytes: &[u8], words: &mut [u32]) -> Built
    ensures { HasBuilt bytes.now words.old words.new result }
{
    lengths_build::build(bytes, words).into()
}

pub fn toggleash_copy_lookup(words: &[u32], address: u32) -> Matched
    ensures value { result ≡ matched (walk words.now address) }
    ensures of_a_list { (rs : List Route) → IsList 32 rs → Laid rs words.now
        → result ≡ matched (gives (longest 32 address rs)) }
{
    lengths::lookup(words, address).into()
}
