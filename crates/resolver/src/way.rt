// How far resolving has come, and one turn of it: the entry of the hop met last ends it, or its gateway is looked up.
ghost use Rattle.std.specs.Prelude.{◌≡◌, ◌≤◌, length, IfOk};
ghost use Rattle.replies.specs.Said.{said_reply};
ghost use Rattle.resolver.specs.Resolve.{match_of, routed};
ghost use Rattle.resolver.specs.Steps.{looks, met, asked as asked_of, begun, goes, turned};
ghost use Rattle.resolver.specs.Coded.{Knows, GoesOn, as_way, first_of, next_of, answer_of, had, used};

use super::entry::{Hop, MOST_INTERFACE};
pub use super::met::Way;
use refusals::Refusal;
use replies::Reply;
use std::ops::ControlFlow;

// The interface and the last gateway used, if any, or the refusal: fields that are not meant are 0.
// kept: the C interface
#[repr(C)]
#[derive(Clone, Copy, Debug, PartialEq, Eq)]
pub struct Resolved {
    pub refusal: u32,
    pub interface: u32,
    pub through: u32,
    pub gateway: u32,
}

// The interface, and the gateway used last, if any.
#[derive(Clone, Copy, Debug, PartialEq, Eq)]
pub struct Reached {
    pub interface: u32,
    pub gateway: Option<u32>,
}

const MOST_LOOKUPS: u32 = 4;

const MOST_ENTRIES: usize = 256;

// A lookup is answered, with `left` lookups left, itself counted, and the gateway used last.
fn asked(answer: Reply, left: u32, gateway: Option<u32>) -> Result<Way, Refusal>
    requires { (1 ≤ left) × Knows (said_reply answer) }
    ensures way { first_of result ≡ asked_of (match_of (said_reply answer)) left (had gateway) (used gateway) }
    ensures left { IfOk result (λ w. 1 ≤ w.left) }
{
    match answer {
        Reply::Found(hop, _, _) => waiting(hop, left, gateway),
        Reply::Nothing(_) | Reply::Done(_, _) => Err(Refusal::NoRoute),
        Reply::Refused(1) => Err(Refusal::Misfit),
        Reply::Refused(_) => Err(Refusal::Foreign),
    }
}

// A hop is met, whose entry comes next. Hop 0 has none.
fn waiting(hop: u32, left: u32, gateway: Option<u32>) -> Result<Way, Refusal>
    requires { 1 ≤ left }
    ensures way { first_of result ≡ met hop left (had gateway) (used gateway) }
    ensures left { IfOk result (λ w. 1 ≤ w.left) }
{
    if hop == 0 {
        return Err(Refusal::NoEntry);
    }
    Ok(Way {
        left,
        at: hop as usize - 1,
        gateway,
    })
}

// The first lookup, unless the number of words or of entries is wrong.
pub fn begin(words: &[u32], count: usize, address: u32) -> Result<Way, Refusal>
    ensures way { first_of result ≡ begun (length words.now) (looks words.now) count address }
    ensures left { IfOk result (λ w. 1 ≤ w.left) }
{
    if words::size::misfit(words.len()) {
        return Err(Refusal::Misfit);
    }
    if count > MOST_ENTRIES {
        return Err(Refusal::NoEntry);
    }
    asked(lookup::lookup(words, address), MOST_LOOKUPS, None)
}

// The entry of the hop met last ends the way at its interface, or refuses it, or has its gateway looked up, where a lookup is
// left beside the one that met it.
pub fn turn(words: &[u32], way: Way, e: Hop) -> Result<ControlFlow<Reached, Way>, Refusal>
    ensures way { next_of result ≡ turned (looks words.now) (as_way way) e }
    ensures left { GoesOn result }
{
    if e.interface == 0 {
        return Ok(ControlFlow::Continue(onward(words, way.left, e.gateway)?));
    }
    if e.interface > MOST_INTERFACE {
        return Err(Refusal::NoEntry);
    }
    Ok(ControlFlow::Break(Reached {
        interface: e.interface,
        gateway: way.gateway,
    }))
}

// A gateway is looked up, where a lookup is left.
fn onward(words: &[u32], left: u32, gateway: u32) -> Result<Way, Refusal>
    ensures way { first_of result ≡ goes (looks words.now) left gateway }
    ensures left { IfOk result (λ w. 1 ≤ w.left) }
{
    if left < 2 {
        return Err(Refusal::NoInterface);
    }
    asked(lookup::lookup(words, gateway), left - 1, Some(gateway))
}

// The answer in plain numbers.
pub fn told(end: Result<Reached, Refusal>) -> Resolved
    ensures { result ≡ routed (answer_of end) }
{
    match end {
        Ok(Reached { interface, gateway }) => Resolved {
            refusal: 0,
            interface,
            through: u32::from(gateway.is_some()),
            gateway: gateway.unwrap_or(0),
        },
        Err(why) => Resolved {
            refusal: why.number(),
            interface: 0,
            through: 0,
            gateway: 0,
        },
    }
}
