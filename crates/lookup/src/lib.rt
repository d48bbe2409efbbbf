// Looking an address up in lent words: the layout's walk, from the root down. It reads one word a level and checks nothing else.
#![tactic(auto)]

ghost use Rattle.std.specs.Prelude.{◌≡◌, cond, ◌+◌, ◌*◌, ◌<◌, ◌≤◌, eqb, length as size};
ghost use Rattle.sizes.specs.Sizes.{hop_bound, best_bound};
ghost use Rattle.numbers.specs.Number.{number};
ghost use Rattle.routes.specs.Match.{none};
ghost use Rattle.routes.specs.Answers.{refused};
ghost use Rattle.candidates.specs.Seen.{lookup_on};
ghost use Rattle.array.specs.Cell.{best_in, link_in, block_in};
ghost use Rattle.words.specs.Table.{seen};
ghost use Rattle.words.specs.CheckReflects.{Fits};
ghost use Rattle.replies.specs.Said.{said_reply};
ghost use Rattle.lookup.specs.Walk.{hop_of, deeper, walk, walked, looked_up};
ghost use Rattle.lookup.specs.Ended.{ended, ends_in, Walks};

use address::Address;
use replies::Reply;
use sizes::{BEST_BOUND, HOP_BOUND};
use std::convert::AsSlice;

// No address has more bits. A block past them stands for a refusal, with the number by which it is past them: ..
pub const MOST_BITS: u32 = 128;
// .. 1 for words of a wrong number, ..
const MISFIT: u32 = 129;
// .. and 2 for a value out of its range.
const ASTRAY: u32 = 130;

// Where a walk has ended: the last best on the way, with its whole length, and the block.
// kept: speed. Two plain numbers and not a `Reply`, whose cases a caller tells apart by a branch that goes either way
#[derive(Clone, Copy, Debug, PartialEq, Eq)]
pub struct End {
    pub best: u32,
    pub block: u32,
}

// The best so far, or that of a cell that has one, in an array below `base` bits: then with its whole length.
// kept: speed. No branch, which would go either way and take a lookup half as long again
pub fn newer(best: u32, own: u32, base: u32) -> u32
    requires { (own < best_bound) × (base ≤ 120) }
    ensures { result ≡ cond (eqb (hop_of own) 0) best (base * hop_bound + own) }
{
    if own % HOP_BOUND == 0 {
        best
    } else {
        base * HOP_BOUND + own
    }
}

// A walk that met a value out of its range.
fn astray() -> End
    ensures { ended result ≡ refused 2 }
{
    End {
        best: 0,
        block: ASTRAY,
    }
}

// A walk ends at a cell without a link.
fn last(best: u32, word: u32, base: u32) -> End
    requires { (link_in word ≡ 0) × (base ≤ 120) }
    ensures { ended result ≡ ends_in base (best_in word) (block_in word) (deeper 0 none best) }
{
    let own = array::cell::best_plain(word);
    if own >= BEST_BOUND {
        return astray();
    }
    let q = array::cell::block_in(word);
    if q > 8 {
        return astray();
    }
    End {
        best: newer(best, own, base),
        block: base + q,
    }
}

// The walk down the arrays, a level for each byte of the address.
fn descend(words: &[u32], address: &[u8]) -> End
    requires { Fits (size words.now) × (size address.now ≤ 16) }
    ensures { Walks (size address.now) words.now (number address.now) result }
{
    let arrays = words::size::arrays_in(words);
    let mut a: usize = 1;
    let mut best: u32 = 0;
    for k in 0..address.len() {
        let i = address::byte_at(address, k);
        let word = words::part::cell(words, a, i);
        let base = 8 * k as u32;
        if !array::cell::has_link(word) {
            return last(best, word, base);
        }
        let own = array::cell::best_linked(word);
        if own >= BEST_BOUND {
            return astray();
        }
        let next = array::cell::array_below(word);
        if next > arrays {
            return astray();
        }
        best = newer(best, own, base);
        a = next;
    }
    astray()
}

// What the end of a walk stands for.
impl From<End> for Reply {
    ghost from_gives = { λ e r. said_reply r ≡ ended e };

    fn from(end: End) -> Reply {
        let block = end.block;
        if block > MOST_BITS {
            return Reply::Refused(block - MOST_BITS);
        }
        let hop = end.best % HOP_BOUND;
        if hop == 0 {
            return Reply::Nothing(block);
        }
        Reply::Found(hop, end.best / HOP_BOUND, block)
    }
}

// The longest match of an address in words of a right number, and its block: a run's, whose start has tested them.
#[tactic(auto, using(crate::proofs::Laws::walk_seen))]
pub fn lookup_on(words: &[u32], address: &[u8]) -> Reply
    requires { Fits (size words.now) × (1 ≤ size address.now) × (size address.now ≤ 16) }
    ensures { said_reply result ≡ looked_up (size address.now) words.now (number address.now) }
{
    descend(words, address).into()
}

// Where the walk of an address ends, in any words.
#[tactic(auto, using(crate::proofs::Laws::walk_seen))]
pub fn walk_along(words: &[u32], address: &[u8]) -> End
    requires { (1 ≤ size address.now) × (size address.now ≤ 16) }
    ensures result_value { ended result ≡ looked_up (size address.now) words.now (number address.now) }
    ensures any_words { ended result ≡ walked (size address.now) words.now
        (number address.now) }
{
    if words::size::misfit(words.len()) {
        return End {
            best: 0,
            block: MISFIT,
        };
    }
    descend(words, address)
}

// The same of an address by value, which lends its bytes.
pub fn walk_of<A: Address>(words: &[u32], address: A) -> End
    ensures result_value { ended result ≡ lookup_on (8 * A.levels) (seen A.levels words.now)
        (walk A.levels words.now (A.value address)) (A.value address) }
    ensures any_words { ended result ≡ walked A.levels words.now (A.value address) }
{
    let bytes = address.bytes();
    walk_along(words, bytes.as_slice())
}

// The longest match of an address by value, and its block.
pub fn lookup<A: Address>(words: &[u32], address: A) -> Reply
    ensures result_value { said_reply result ≡ lookup_on (8 * A.levels) (seen A.levels words.now)
        (walk A.levels words.now (A.value address)) (A.value address) }
    ensures any_words { said_reply result ≡ walked A.levels words.now (A.value address) }
{
    walk_of(words, address).into()
}
