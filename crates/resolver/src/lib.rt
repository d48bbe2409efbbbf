// From an address to the interface that its packets leave by: a second library, above lookup. Beside the table a run of entries
// is lent, one for each hop: an interface, or a gateway to be looked up in turn. At most four lookups are made.
//
//     10.1.2.3 ── hop 3 ── gateway 10.9.9.9 ── hop 2 ── gateway 192.0.2.9 ── hop 4 ── interface 64
#![tactic(auto)]

pub mod entry; // one entry of the run
mod met; // a hop that was met
mod run; // the run of entries, as structs or as plain words
pub mod way; // how far resolving has come, and one turn of it

ghost use Rattle.std.specs.Prelude.{◌≡◌};
ghost use Rattle.resolver.specs.Entry.{hops, plain};
ghost use Rattle.resolver.specs.Begun.{entries as listed};
ghost use Rattle.resolver.specs.Coded.{answer_of};
ghost use Rattle.resolver.specs.Resolve.{routed};
ghost use Rattle.resolver.specs.Stated.{HasResolved};

use entry::Hop;
use refusals::Refusal;
use run::{Plain, Run};
use std::ops::ControlFlow;
use way::{Reached, Resolved};

// A turn for each lookup, until one ends the way.
fn resolve<R: Run>(words: &[u32], run: R, address: u32) -> Result<Reached, Refusal>
    ensures { HasResolved words.now (listed (R.at run) (R.entries run)) address (routed (answer_of result)) }
{
    let mut way = way::begin(words, run.count(), address)?;
    loop {
        match way::turn(words, way, run.entry(way.at))? {
            ControlFlow::Continue(next) => way = next,
            ControlFlow::Break(reached) => return Ok(reached),
        }
    }
}

// The interface of an address, with the entries as plain words, two an entry: interface, gateway.
pub fn resolve_plain(words: &[u32], entries: &[u32], address: u32) -> Resolved
    ensures { HasResolved words.now (plain entries.now) address result }
{
    way::told(resolve(words, Plain(entries), address))
}

// ---- the calls of bindings/c/toggleash_resolve.h, which `resolver_c` exports

// The version of the table's words and of these calls, in the name: that of `toggleash`.
pub fn toggleash_resolve_version_6() -> u32
    ensures { result ≡ 6 }
{
    6
}

// The interface of an address, with the entries as they are.
pub fn toggleash_resolve(words: &[u32], entries: &[Hop], address: u32) -> Resolved
    ensures { HasResolved words.now (hops entries.now) address result }
{
    way::told(resolve(words, entries, address))
}
