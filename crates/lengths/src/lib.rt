// A route list laid out by lengths in lent words, and its lookup: a hash table for each length, and the search's way among them.
#![tactic(auto)]

ghost use Rattle.std.specs.Prelude.{◌≡◌, not, ◌+◌, ◌*◌, ◌-◌, ◌/◌, ◌^◌, ◌<◌, ◌≤◌, length, get_or, List};
ghost use Rattle.routes.specs.Route.{Route, IsList};
ghost use Rattle.routes.specs.Match.{longest};
ghost use Rattle.routes.specs.Seen.{gives};
ghost use Rattle.lengths.specs.Way.{hit, search};
ghost use Rattle.lengths.specs.Layout.{header_words, bad_best, taken_by, places_of, probe as probed};
ghost use Rattle.lengths.specs.Layout.{start as start_of, place as place_of, find_in, look, answered, walk};
ghost use Rattle.lengths.specs.Laid.{Laid};
ghost use Rattle.lengths.specs.Answer.{Looked, there, look_of};
ghost use Rattle.replies.specs.Said.{said_match};

use refusals::Refusal;
use replies::Best;

// The words of the header.
pub const HEADER_WORDS: usize = 1024;

// The words of an entry.
pub const ENTRY_WORDS: usize = 8;
// Its places, of a key and a best match each.
pub const PLACES: usize = 4;
// Less an entry's bits, its key.
pub const MOST_BITS: u32 = 4294967295;
// The factor by which bits are mixed.
const MIXER: u32 = 2654435769;
// 2^32 / PLACES, by which a product with the entries is divided, as one with the places would have more than 64 bits.
const PLACE_SHARE: usize = 1073741824;
// A best match is hop * HOP_UNIT + length.
pub const HOP_UNIT: u32 = 256;
// One past the best matches.
const BEST_BOUND: u32 = 16777216;
// The longest length.
pub const LONGEST: u32 = 32;

// What a look at one length gives: no entry; the word of an entry's best match; a table outside the words.
// kept: the search's loop takes the three alike, and with options in results it would match one inside the other.
#[derive(Clone, Copy, Debug, PartialEq, Eq)]
pub enum Look {
    Miss,
    Hit(usize),
    Outside,
}

// ---- one hash table

// Where the probe for v begins among the places of so many entries.
pub fn start(v: u32, size: usize) -> usize
    requires { (1 ≤ size) × (size < 2 ^ 32) }
    ensures { (result ≡ start_of v (4 * size)) × (result < 4 * size) }
{
    v.wrapping_mul(MIXER) as usize * size / PLACE_SHARE
}

// The place after d steps from s, round the end.
pub fn place(s: usize, p: usize, d: usize) -> usize
    requires { (s < p) × (d < p) × (p ≤ 2 ^ 62) }
    ensures { (result ≡ place_of s p d) × (result < p) }
{
    if s + d < p { s + d } else { s + d - p }
}

// Whether a place of length m is free, whose key is word `at` and whose best match stands p words on.
pub fn is_free(words: &[u32], m: u32, at: usize, p: usize) -> bool
    requires { at + p < length words.now }
    ensures { result ≡ not (taken_by m (get_or words.now at 0) (get_or words.now (at + p) 0)) }
{
    words[at] == 0 && (m < LONGEST || words[at + p] == 0)
}

// What p places at word o have for the m bits v from the step d on, where the probe begins at s.
fn probe_on(words: &[u32], o: usize, m: u32, p: usize, v: u32, s: usize, d: usize) -> Look
    requires { (o + 2 * p ≤ length words.now) × (s ≡ start_of v p) × (s < p) × (d ≤ p) }
    ensures { Looked words.now result (probed (places_of words.now m o p) p v (p - d) d) }
{
    for e in d..p {
        let at = o + place(s, p, e);
        if is_free(words, m, at, p) {
            return Look::Miss;
        }
        if words[at] == MOST_BITS - v {
            return Look::Hit(at + p);
        }
    }
    Look::Miss
}

// What the table of so many entries at word o has for the m bits v.
pub fn probe(words: &[u32], o: usize, m: u32, size: usize, v: u32) -> Look
    requires { (o + 8 * size ≤ length words.now) × (size < 2 ^ 32) }
    ensures { Looked words.now result (find_in words.now m o size v) }
{
    if size == 0 {
        return Look::Miss;
    }
    probe_on(words, o, m, PLACES * size, v, start(v, size), 0)
}

// ---- the tables of all lengths

// What the table of length m has for the m bits v: the first place of the probe apart, as most end there. The search alone calls
// it, so that it becomes a part of its loop.
// kept: speed, with one look for the search and the build the loop took 34, 45, 74 ns against 30, 42, 58.
fn look_in(words: &[u32], m: u32, v: u32) -> Look
    requires { (header_words ≤ length words.now) × (m ≤ 32) }
    ensures { Looked words.now result (look words.now m v) }
{
    let o = HEADER_WORDS + ENTRY_WORDS * words[2 * m as usize] as usize;
    let size = words[2 * m as usize + 1] as usize;
    if o + ENTRY_WORDS * size > words.len() {
        return Look::Outside;
    }
    if size == 0 {
        return Look::Miss;
    }
    let p = PLACES * size;
    let s = start(v, size);
    let at = o + s;
    if is_free(words, m, at, p) {
        return Look::Miss;
    }
    if words[at] == MOST_BITS - v {
        return Look::Hit(at + p);
    }
    probe_on(words, o, m, p, v, s, 1)
}

// ---- the search

// From length 16 on, with the default's match, which is word 0: longer after a hit, shorter after a miss, and 32 after a hit at
// 31. Only where the best match stands is kept, so that of all those met one is read.
fn search_from(words: &[u32], address: u32) -> Look
    requires { header_words ≤ length words.now }
    ensures { Looked words.now result
        (search (λ l. look words.now l (address / 2 ^ (32 - l))) 4 16 (get_or words.now 0 0)) }
{
    let mut n: u32 = 4;
    let mut m: u32 = 16;
    let mut best = 0;
    loop {
        match look_in(words, m, address >> (LONGEST - m)) {
            Look::Miss => {
                if n == 0 {
                    return Look::Hit(best);
                }
                n -= 1;
                m -= numbers::power(n);
            }
            Look::Hit(b) => {
                best = b;
                if n > 0 {
                    n -= 1;
                    m += numbers::power(n);
                } else if m == 31 {
                    m = 32;
                } else {
                    return Look::Hit(b);
                }
            }
            Look::Outside => {
                return Look::Outside;
            }
        }
    }
}

// ---- the answer

// A best match that is neither 0 nor a hop and a length of at most 32.
fn strange(best: u32) -> bool
    ensures { result ≡ bad_best best }
{
    best != 0 && (!(HOP_UNIT..BEST_BOUND).contains(&best) || best % HOP_UNIT > LONGEST)
}

// The answer of a best match.
fn told(best: u32) -> Result<Option<Best>, Refusal>
    ensures { said_match result ≡ answered (hit best) }
{
    if strange(best) {
        return Err(Refusal::Foreign);
    }
    if best == 0 {
        return Ok(None);
    }
    Ok(Some(Best {
        hop: best / HOP_UNIT,
        length: best % HOP_UNIT,
    }))
}

fn answer(words: &[u32], found: Look) -> Result<Option<Best>, Refusal>
    requires { there words.now found }
    ensures { said_match result ≡ answered (look_of words.now found) }
{
    match found {
        Look::Miss => Ok(None),
        Look::Hit(at) => told(words[at]),
        Look::Outside => Err(Refusal::Foreign),
    }
}

// The longest match of an address: on any words what the layout's walk gives, and on a list laid out that of the list.
pub fn lookup(words: &[u32], address: u32) -> Result<Option<Best>, Refusal>
    ensures result_value { said_match result ≡ walk words.now address }
    ensures of_a_list { (rs : List Route) → IsList 32 rs → Laid rs words.now
        → said_match result ≡ gives (longest 32 address rs) }
{
    if words.len() < HEADER_WORDS {
        return Err(Refusal::Foreign);
    }
    answer(words, search_from(words, address))
}
