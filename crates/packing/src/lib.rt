// The calls of compressed tables for C, which `packing_c` exports: the words that a table needs compressed, the build, and the
// lookup in what was built.
//
//     words ── packed_need ──▶ how many words to lend
//       └───── packed_build ─▶ packed, carried anywhere ── packed_lookup ──▶ match
#![tactic(auto)]

ghost use Rattle.std.specs.Prelude.{◌≡◌};
ghost use Rattle.words.specs.Table.{seen};
ghost use Rattle.packed.specs.Layout.{walk};
ghost use Rattle.packed_build.specs.Answer.{need_on, build_answer};
ghost use Rattle.answers.specs.Numbers.{needed, matched};
ghost use Rattle.packing.specs.Face.{built, HasBuilt};

use answers::{Matched, Needed};
use packed_build::Counts;
use refusals::Refusal;

// The refusal's number, or 0 and the values.
#[repr(C)]
#[derive(Clone, Copy, Debug, PartialEq, Eq, Default)]
pub struct Built {
    pub refusal: u32,
    pub arrays: u32,
    pub words: u64,
}

impl From<Result<Counts, Refusal>> for Built {
    ghost from_gives = { λ answer r. r ≡ built (build_answer answer) };

    fn from(answer: Result<Counts, Refusal>) -> Built {
        match answer {
            Ok(Counts { arrays, words }) => Built {
                refusal: 0,
                arrays,
                words: words as u64,
            },
            Err(why) => Built {
                refusal: why.number(),
                ..Built::default()
            },
        }
    }
}

// ---- the calls of bindings/c/toggleash_packed.h

// The version of the table's words and of these calls, in the name: that of `toggleash`.
pub fn toggleash_packed_version_6() -> u32
    ensures { result ≡ 6 }
{
    6
}

pub fn toggleash_packed_need(words: &[u32]) -> Needed
    ensures { result ≡ needed (need_on (seen 4 words.now)) }
{
    packed_build::need(words).into()
}

pub fn toggleash_packed_build(words: &[u32], packed: &mut [u32]) -> Built
    ensures { HasBuilt words.now packed.old packed.new result }
{
    packed_build::build(words, packed).into()
}

pub fn toggleash_packed_lookup(packed: &[u32], address: u32) -> Matched
    ensures { result ≡ matched (walk 4 packed.now address) }
{
    packed::lookup(packed, address).into()
}
