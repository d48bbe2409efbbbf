// The C calls of bindings/c/toggleash_resolve.h: each is the function of its name in `resolver`, exported, with the same clauses.
// A slice passes as a pointer and a length. No call asks anything of its caller, since nothing would check it.
#![tactic(auto)]

ghost use Rattle.std.specs.Prelude.{◌≡◌};
ghost use Rattle.resolver.specs.Entry.{hops};
ghost use Rattle.resolver.specs.Stated.{HasResolved};

use resolver::entry::Hop;
use resolver::way::Resolved;

// The version is in the name, so that a caller made for another one does not link.
#[unsafe(no_mangle)]
pub extern "C" fn toggleash_resolve_version_6() -> u32
    ensures { result ≡ 6 }
{
    resolver::toggleash_resolve_version_6()
}

#[unsafe(no_mangle)]
pub extern "C" fn toggleash_resolve(words: &[u32], entries: &[Hop], address: u32) -> Resolved
    ensures { HasResolved words.now (hops entries.now) address result }
{
    resolver::toggleash_resolve(words, entries, address)
}
