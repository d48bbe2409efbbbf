// Looking an address up in a table compressed by masks: the layout's walk, an entry of four words a level.
#![tactic(auto)]

ghost use Rattle.std.specs.Prelude.{◌≡◌, ◌<◌, IfOk};
ghost use Rattle.sizes.specs.Sizes.{slot_end, cell_count};
ghost use Rattle.replies.specs.Said.{said_match};
ghost use Rattle.routes.specs.Match.{none};
ghost use Rattle.lookup.specs.Walk.{deeper};
ghost use Rattle.packed.specs.Layout.{gets as getsOf, walk};
ghost use Rattle.packed.specs.Ended.{astray, ended, told};

use lookup::newer;
use masks::FULL_MASK;
use masks::index::index;
use masks::prefix::Prefix;
use refusals::Refusal;
use replies::Best;
use sizes::{BEST_BOUND, HOP_BOUND, LAST_SLOT};

// The words before the first array.
pub const HEADER_WORDS: usize = 1024;
// The words of an entry.
pub const ENTRY_WORDS: usize = 4;

// A byte has the prefix of an entry's slot: then that slot stands over the byte's own.
#[tactic(auto, using(crate::proofs::Turns::gets_some))]
fn gets(y: u32, s: usize) -> bool
    requires { (y < cell_count) × (s < slot_end) }
    ensures { result ≡ getsOf y s }
{
    if s == 0 {
        return false;
    }
    (256 + y) >> Prefix { slot: s }.spare() == s as u32
}

// The walk down the arrays, on any words: the last best on the way, with its whole length.
// kept: speed. The best is one number, 0 for none, so that `newer` needs no branch, which took half as long again in `lookup`
#[tactic(auto, using(crate::proofs::Turns::turns))]
fn descend(words: &[u32], address: u32) -> Result<u32, Refusal>
    ensures end { ended result ≡ walk 4 words.now address }
    ensures low { IfOk result (λ best. best < astray) }
{
    let n = words.len();
    let mut o: usize = HEADER_WORDS;
    let mut m: u32 = FULL_MASK;
    let mut best: u32 = 0;
    for left in (0..4).rev() {
        if m > FULL_MASK {
            return Err(Refusal::Foreign);
        }
        let y = (address >> (8 * left)) % 256;
        let at = o + ENTRY_WORDS * index(m, y);
        if n < at + ENTRY_WORDS {
            return Err(Refusal::Foreign);
        }
        let s = words[at] as usize;
        if s > LAST_SLOT {
            return Err(Refusal::Foreign);
        }
        if !gets(y, s) {
            return Ok(best);
        }
        let own = words[at + 1];
        if own >= BEST_BOUND {
            return Err(Refusal::Foreign);
        }
        best = newer(best, own, 24 - 8 * left);
        o = words[at + 2] as usize;
        if o == 0 {
            return Ok(best);
        }
        m = words[at + 3];
    }
    Err(Refusal::Foreign)
}

// What the last best of a walk stands for.
fn told(best: u32) -> Option<Best>
    ensures { told result ≡ deeper 0 none best }
{
    let hop = best % HOP_BOUND;
    if hop == 0 {
        return None;
    }
    Some(Best {
        hop,
        length: best / HOP_BOUND,
    })
}

// The longest match of an address: on any words what the layout's walk gives. That on a table laid out this is the table's own is
// a law (`walk-longest`).
pub fn lookup(words: &[u32], address: u32) -> Result<Option<Best>, Refusal>
    ensures { said_match result ≡ walk 4 words.now address }
{
    Ok(told(descend(words, address)?))
}
