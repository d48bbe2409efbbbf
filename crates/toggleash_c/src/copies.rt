// The copy's calls for C: its need, its build from the bytes of a written-out list, and its lookup.
ghost use Rattle.std.specs.Prelude.{◌≡◌, List};
ghost use Rattle.routes.specs.Route.{Route, IsList};
ghost use Rattle.routes.specs.Match.{longest};
ghost use Rattle.routes.specs.Seen.{gives};
ghost use Rattle.listing.specs.Listed.{listed_in};
ghost use Rattle.lengths_build.specs.Answer.{need_on};
ghost use Rattle.lengths.specs.Layout.{walk};
ghost use Rattle.lengths.specs.Laid.{Laid};
ghost use Rattle.answers.specs.Numbers.{needed, matched};
ghost use Rattle.toggleash.specs.Copies.{HasBuilt};

use answers::{Matched, Needed};
use toggleash::copies::Built;

#[unsafe(no_mangle)]
pub extern "C" fn toggleash_copy_need(bytes: &[u8]) -> Needed
    ensures { result ≡ needed (need_on (listed_in bytes.now)) }
{
    toggleash::copies::toggleash_copy_need(bytes)
}

#[unsafe(no_mangle)]
pub extern "C" fn toggleash_copy_build(bytes: &[u8], words: &mut [u32]) -> Built
    ensures { HasBuilt bytes.now words.old words.new result }
{
    toggleash::copies::toggleash_copy_build(bytes, words)
}

#[unsafe(no_mangle)]
pub extern "C" fn toggleash_copy_lookup(words: &[u32], address: u32) -> Matched
    ensures value { result ≡ matched (walk words.now address) }
    ensures of_a_list { (rs : List Route) → IsList 32 rs → Laid rs words.now
        → result ≡ matched (gives (longest 32 address rs)) }
{
    toggleash::copies::toggleash_copy_lookup(words, address)
}
