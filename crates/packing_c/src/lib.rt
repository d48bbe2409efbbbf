// The C calls of bindings/c/toggleash_packed.h: each is the function of its name in `packing`, exported, with the same clauses. A
// slice passes as a pointer and a length. No call asks anything of its caller, since nothing would check it.
#![tactic(auto)]

ghost use Rattle.std.specs.Prelude.{◌≡◌};
ghost use Rattle.words.specs.Table.{seen};
ghost use Rattle.packed.specs.Layout.{walk};
ghost use Rattle.packed_build.specs.Answer.{need_on};
ghost use Rattle.answers.specs.Numbers.{needed, matched};
ghost use Rattle.packing.specs.Face.{HasBuilt};

use answers::{Matched, Needed};
use packing::Built;

// The version is in the name, so that a caller made for another one does not link.
#[unsafe(no_mangle)]
pub extern "C" fn toggleash_packed_version_6() -> u32
    ensures { result ≡ 6 }
{
    packing::toggleash_packed_version_6()
}

#[unsafe(no_mangle)]
pub extern "C" fn toggleash_packed_need(words: &[u32]) -> Needed
    ensures { result ≡ needed (need_on (seen 4 words.now)) }
{
    packing::toggleash_packed_need(words)
}

#[unsafe(no_mangle)]
pub extern "C" fn toggleash_packed_build(words: &[u32], packed: &mut [u32]) -> Built
    ensures { HasBuilt words.now packed.old packed.new result }
{
    packing::toggleash_packed_build(words, packed)
}

#[unsafe(no_mangle)]
pub extern "C" fn toggleash_packed_lookup(packed: &[u32], address: u32) -> Matched
    ensures { result ≡ matched (walk 4 packed.now address) }
{
    packing::toggleash_packed_lookup(packed, address)
}
