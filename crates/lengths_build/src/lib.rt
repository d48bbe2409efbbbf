// A list laid out by lengths from its written-out bytes: the words that it needs, and the build, one length after the other. The
// tables of the shorter lengths tell the best match of a marker, so nothing is kept beside the lent words.
#![tactic(auto)]

ghost use Rattle.std.specs.Prelude.{◌≡◌, true, ◌+◌, ◌*◌, ◌-◌, ◌/◌, ◌^◌, ◌<◌, ◌≤◌, length};
ghost use Rattle.routes.specs.Room.{distinct};
ghost use Rattle.lengths.specs.Marks.{best_at, markers, words_for as wordsFor, entries as entriesOf};
ghost use Rattle.lengths.specs.Entries.{tally};
ghost use Rattle.listing.specs.Listed.{records_in, candidate_at, list_of, listed_in};
ghost use Rattle.lengths.specs.Layout.{header_words, key_of, taken_by, places_of, find_in, look};
ghost use Rattle.lengths.specs.Answer.{Looked};
ghost use Rattle.lengths.specs.Hash.{Free};
ghost use Rattle.lengths_build.specs.Filling.{size_for, chosen, Filling, Filled, Space, Put, is_miss, below};
ghost use Rattle.lengths_build.specs.Build.{LeavesOn, entries_bound, Bests, Cleared};
ghost use Rattle.lengths_build.specs.Build.{Headed, Makes, Made, Starts, Ends};
ghost use Rattle.lengths_build.specs.Answer.{need_on, build_on, need_answer, build_answer};
ghost use Rattle.lengths_build.specs.Reach.{stride as stride_of, reach as reachOf};

use lengths::{ENTRY_WORDS, HEADER_WORDS, HOP_UNIT, LONGEST, Look, MOST_BITS, PLACES};
use listing::{Listed, Record, is_between};
use refusals::Refusal;

// The most entries that a table's word in the header can tell.
const MOST_SIZE: usize = 4294967295;

// What a build tells of its list.
#[derive(Clone, Copy, Debug, PartialEq, Eq)]
pub struct Counts {
    pub routes: usize,
    pub markers: usize,
}

// ---- the need

// The largest power of 2 in m, 16 at most.
fn stride(m: u32) -> u32
    ensures { (result ≡ stride_of m) × (1 ≤ result) × (result ≤ 16) }
{
    1 << m.trailing_zeros().min(4)
}

// The longest length whose way turns longer at m, or m if there is none.
fn reach(m: u32) -> u32
    requires { m ≤ 32 }
    ensures { result ≡ reachOf m }
{
    let next = m + stride(m);
    if next == LONGEST { LONGEST } else { next - 1 }
}

// How many entries the length m has: no more than there are addresses.
fn entries(list: Listed<'_>, m: u32) -> usize
    requires { (1 ≤ m) × (m ≤ 32) }
    ensures { (result ≡ distinct (entriesOf m (list_of list.entry.bytes.now))) × (result ≤ entries_bound) }
{
    list.count(m, reach(m), m)
}

// How many default routes the list has: its first record tells.
fn defaults(list: Listed<'_>) -> usize
    ensures { (result ≡ tally 0 (list_of list.entry.bytes.now)) × (result ≤ 1) }
{
    if list.records() == 0 || list.record(0).bits() != 0 {
        return 0;
    }
    1
}

// The entries of all lengths, and the default route: as many as there are routes and markers.
fn total(list: Listed<'_>) -> usize
    ensures { (result ≡ length (list_of list.entry.bytes.now) + markers (list_of list.entry.bytes.now))
        × (result ≤ 33 * entries_bound) }
{
    let mut sum = defaults(list);
    for m in 1..=LONGEST {
        sum += entries(list, m);
    }
    sum
}

// The words that it needs.
fn words_for(list: Listed<'_>) -> usize
    ensures { result ≡ wordsFor (list_of list.entry.bytes.now) }
{
    ENTRY_WORDS * total(list) + HEADER_WORDS
}

// The words that the list of the bytes needs.
pub fn need(bytes: &[u8]) -> Result<usize, Refusal>
    ensures { need_answer result ≡ need_on (listed_in bytes.now) }
{
    let Some(list) = Listed::of(bytes) else {
        return Err(Refusal::Foreign);
    };
    Ok(words_for(list))
}

// ---- one entry

// A table that is filled: that of length m, of so many entries from word o on.
#[derive(Clone, Copy, Debug, PartialEq, Eq)]
struct Table {
    m: u32,
    o: usize,
    size: usize,
}

// The first free place on the way of v.
fn free(words: &[u32], t: Table, v: u32) -> usize
    requires { Space words.now t.o t.m t.size }
    ensures { Free (places_of words.now t.m t.o (4 * t.size)) (4 * t.size) v result × (result < 4 * t.size) }
{
    let p = PLACES * t.size;
    let s = lengths::start(v, t.size);
    for d in 0..p {
        let j = lengths::place(s, p, d);
        if lengths::is_free(words, t.m, t.o + j, p) {
            return j;
        }
    }
    unreachable!()
}

// An entry put at the first free place on its way. Its words must not read as a free place's: a later probe would end there.
fn put(words: &mut [u32], t: Table, v: u32, best: u32)
    requires { Space words.old t.o t.m t.size × (taken_by t.m (key_of v) best ≡ true) }
    ensures { Put words.old words.new t.o t.m t.size v best }
{
    let at = t.o + free(words, t, v);
    words[at] = MOST_BITS - v;
    words[at + PLACES * t.size] = best;
}

// It has no entry v.
fn absent(words: &[u32], t: Table, v: u32) -> bool
    requires { (t.o + 8 * t.size ≤ length words.now) × (t.size < 2 ^ 32) }
    ensures { result ≡ is_miss (find_in words.now t.m t.o t.size v) }
{
    matches!(lengths::probe(words, t.o, t.m, t.size, v), Look::Miss)
}

// What the table of length m has for the m bits v.
// kept: speed, the search has such a look of its own (`lengths::look_in`).
fn look_at(words: &[u32], m: u32, v: u32) -> Look
    requires { (header_words ≤ length words.now) × (m ≤ 32) }
    ensures { Looked words.now result (look words.now m v) }
{
    let head = 2 * m as usize;
    let o = HEADER_WORDS + ENTRY_WORDS * words[head] as usize;
    let size = words[head + 1] as usize;
    if o + ENTRY_WORDS * size > words.len() {
        return Look::Outside;
    }
    lengths::probe(words, o, m, size, v)
}

// The best match that the tables shorter than m have for the m bits v.
fn shorter(words: &[u32], m: u32, v: u32) -> u32
    requires { (header_words ≤ length words.now) × (1 ≤ m) × (m ≤ 32) }
    ensures { result ≡ below words.now m v (m - 1) }
{
    for l in (1..m).rev() {
        if let Look::Hit(b) = look_at(words, l, v >> (m - l)) {
            return words[b];
        }
    }
    words[0]
}

// The best match of the head v of record i: its prefix's winner if it is a route of that length.
fn best_of(list: Listed<'_>, words: &[u32], i: usize, m: u32, v: u32) -> u32
    requires { Bests list.bytes.now words.now i m v }
    ensures { result ≡ best_at (list_of list.entry.bytes.now) m v }
{
    if list.record(i).bits() == m {
        return list.winner(i) * HOP_UNIT + m;
    }
    shorter(words, m, v)
}

// The head of record i, entered unless it is there.
fn enter(list: Listed<'_>, words: &mut [u32], marks: bool, i: usize, t: Table)
    requires { Filling marks list.bytes.now words.old (i + 1) t.m t.o t.size
        × (chosen marks t.m (candidate_at list.bytes.now i).len ≡ true) }
    ensures { Filled marks list.entry.bytes.now words.old words.new i t.m t.o t.size }
{
    let v = list.record(i).head(t.m);
    if absent(words, t, v) {
        let best = best_of(list, words, i, t.m, v);
        put(words, t, v, best);
    }
}

// ---- one table

// Whether a route of length l is entered at length m: in the first pass the routes of that length, in the second the markers.
// kept: the passes differ in this one test, and a closure in its place would carry its contract through `fill` and `enter`.
fn is_chosen(marks: bool, m: u32, l: u32) -> bool
    requires { (1 ≤ m) × (m ≤ 32) × (l ≤ 32) }
    ensures { result ≡ chosen marks m l }
{
    if marks {
        is_between(m + 1, reach(m), l)
    } else {
        l == m
    }
}

// A pass over all records, from the last to the first.
fn fill(list: Listed<'_>, words: &mut [u32], marks: bool, t: Table)
    requires { Filling marks list.bytes.now words.old (records_in list.bytes.now) t.m t.o t.size }
    ensures { Filled marks list.entry.bytes.now words.old words.new 0 t.m t.o t.size }
{
    for i in (0..list.records()).rev() {
        if is_chosen(marks, t.m, list.record(i).bits()) {
            enter(list, words, marks, i, t);
        }
    }
}

// The words from .. to - 1 set to 0.
fn clear(words: &mut [u32], from: usize, to: usize)
    requires { (from ≤ to) × (to ≤ length words.old) }
    ensures { Cleared words.old words.new from to }
{
    words[from..to].fill(0);
}

// How many entries stand before the table of length m and how many it has, in the header.
fn enter_header(words: &mut [u32], m: u32, before: usize, size: usize)
    requires { (m ≤ 32) × (header_words ≤ length words.old) × (before < 2 ^ 32) × (size < 2 ^ 32) }
    ensures { Headed words.old words.new m before size }
{
    let at = 2 * m as usize;
    words[at] = before as u32;
    words[at + 1] = size as u32;
}

// For how many entries a table is made that is to hold so many: a word cannot tell 2^32, and the places of one less are enough.
fn sized(count: usize) -> usize
    ensures { (result ≡ size_for count) × (result < 2 ^ 32) × (result ≤ count) }
{
    count.min(MOST_SIZE)
}

// The table of length m, made for `count` entries after those before it.
fn make_table(list: Listed<'_>, words: &mut [u32], m: u32, before: usize, count: usize)
    requires { Makes list.bytes.now words.old m before count }
    ensures { Made list.entry.bytes.now words.old words.new m before count }
{
    let size = sized(count);
    enter_header(words, m, before, size);
    let o = HEADER_WORDS + ENTRY_WORDS * before;
    let end = o + ENTRY_WORDS * size;
    clear(words, o, end);
    let t = Table { m, o, size };
    fill(list, words, false, t);
    fill(list, words, true, t);
}

// ---- all tables

// The tables of all lengths, one after the other.
fn tables(list: Listed<'_>, words: &mut [u32])
    requires { Starts list.bytes.now words.old }
    ensures { Ends list.entry.bytes.now words.old words.new }
{
    let mut before = 0;
    for m in 1..=LONGEST {
        let count = entries(list, m);
        make_table(list, words, m, before, count);
        before += count;
    }
}

// The best match of length 0: the default route's records are the first ones, if it is held.
fn default_of(list: Listed<'_>) -> u32
    ensures { result ≡ best_at (list_of list.entry.bytes.now) 0 0 }
{
    if list.records() == 0 || list.record(0).bits() != 0 {
        return 0;
    }
    list.winner(0) * HOP_UNIT
}

// A written-out list laid out: the counts of its routes and markers.
pub fn build(bytes: &[u8], words: &mut [u32]) -> Result<Counts, Refusal>
    ensures result_value { build_answer result ≡ build_on (listed_in bytes.now) (length words.old) }
    ensures words { LeavesOn (listed_in bytes.now) words.old words.new }
{
    let Some(list) = Listed::of(bytes) else {
        return Err(Refusal::Foreign);
    };
    let n = words_for(list);
    if words.len() < n {
        return Err(Refusal::Short);
    }
    words[0] = default_of(list);
    tables(list, words);
    let routes = list.routes();
    let markers = (n - HEADER_WORDS) / ENTRY_WORDS - routes;
    Ok(Counts { routes, markers })
}
