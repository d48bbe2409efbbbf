// All lent words as arrays: a header, then arrays of 3,072 words that hang below cells.
#![tactic(auto)]

pub mod size; // how many words a table has, and how many arrays
pub mod part; // where an array stands, and what is read of it
pub mod total; // the totals of arrays

ghost use Rattle.std.specs.Prelude.{◌≡◌, ◌+◌, ◌-◌, ◌*◌, ◌/◌, ◌<◌, ◌≤◌, true, false, length, nat_eq, slice_index};
ghost use Rattle.logic.specs.Every.{all_b};
ghost use Rattle.logic.specs.Nonzero.{nonzero};
ghost use Rattle.sizes.specs.Sizes.{most_arrays, least_words, most_words, cell_count, array_at, per_group, group_count};
ghost use Rattle.sizes.specs.Sizes.{group_stride};
ghost use Rattle.array.specs.Check.{empty_b, bare_b};
ghost use Rattle.array.specs.Frame.{page_of};
ghost use Rattle.words.specs.Size.{Bounded};
ghost use Rattle.words.specs.Words.{arrays_of, array_count, slots_of};
ghost use Rattle.words.specs.TableBut.{RightSlotsOf};
ghost use Rattle.tree.specs.Free.{first_free};
ghost use Rattle.words.specs.Table.{blank_b};
ghost use Rattle.words.specs.Offers.{behind, next_free};
ghost use Rattle.words.specs.Frees.{Passed, Blanks, OfferedAt, Offered, found_last, HasFrees};
ghost use Rattle.words.specs.Gained.{retagged, Gains, Releases, GainedAny, ReleasedAny};

use array::tag::{cell_in, level_in, parent_in, tag_of};
use part::{blank, cell, page, tag};
use size::arrays_in;
use sizes::{ARRAY_WORDS, GROUP_STRIDE, PER_GROUP, STRIDE_ARRAYS};

// The first free array among from .. to - 1, if there is one.
#[tactic(auto, using(crate::proofs::Laws::free_hit, crate::proofs::Laws::free_miss, crate::proofs::Laws::free_none))]
fn first_free(words: &[u32], from: usize, to: usize) -> Option<usize>
    requires { (1 ≤ from) × (from ≤ to) × (array_at to ≤ length words.now) }
    ensures { result ≡ nonzero (first_free (arrays_of words.now) from (to - from)) }
{
    for a in from..to {
        if tag(words, a) == 0 {
            return Some(a);
        }
    }
    None
}

// The header tells that GROUP_STRIDE groups from g on are full.
// kept: speed. No early way out: so the loop reads several counts at once.
#[tactic(auto, using(logic::specs::Reflects::all_none, logic::specs::Reflects::test_more))]
fn full_from(words: &[u32], g: usize) -> bool
    requires { (g + group_stride ≤ group_count) × (least_words ≤ length words.now) }
    ensures { result ≡ all_b (λ k. nat_eq (slice_index words.now (g + 1 + k)) per_group) group_stride }
{
    let mut full = true;
    for k in 0..GROUP_STRIDE {
        full &= words[g + 1 + k] == PER_GROUP as u32;
    }
    full
}

// The group from which to search: those before it are told full, GROUP_STRIDE at a time.
fn passed(words: &[u32]) -> usize
    requires { Bounded words.now }
    ensures { Passed words.now result }
{
    let strides = arrays_in(words) / STRIDE_ARRAYS;
    for k in 0..strides {
        let g = GROUP_STRIDE * k;
        if !full_from(words, g) {
            return g;
        }
    }
    GROUP_STRIDE * strides
}

// The first free array past the first `from` groups, if there is one: groups that are told full are passed over.
fn free_past(words: &[u32], from: usize) -> Option<usize>
    requires { Bounded words.now × (per_group * from ≤ array_count words.now) }
    ensures { result ≡ nonzero (behind words.now from) }
{
    let n = arrays_in(words);
    let groups = n / PER_GROUP;
    for g in from..groups {
        if words[g + 1] != PER_GROUP as u32 {
            if let Some(a) = first_free(words, PER_GROUP * g + 1, PER_GROUP * g + PER_GROUP + 1) {
                return Some(a);
            }
        }
    }
    first_free(words, PER_GROUP * groups + 1, n + 1)
}

// The first free array after array f, which was found so, if there is one.
fn free_after(words: &[u32], f: usize) -> Option<usize>
    requires { Bounded words.now × OfferedAt words.now f }
    ensures { result ≡ nonzero (next_free words.now f) }
{
    let n = arrays_in(words);
    let g = (f + 7) / PER_GROUP;
    let e = PER_GROUP * g;
    if n <= e {
        return first_free(words, f + 1, n + 1);
    }
    if let Some(a) = first_free(words, f + 1, e + 1) {
        return Some(a);
    }
    free_past(words, g)
}

// The first free array after the last that was found, or the first of all.
fn free_next(words: &[u32], last: Option<usize>) -> Option<usize>
    requires { Bounded words.now × Offered words.now last }
    ensures { result ≡ nonzero (next_free words.now (found_last last)) }
{
    match last {
        None => free_past(words, passed(words)),
        Some(f) => free_after(words, f),
    }
}

// The slots, cells and totals of array f are 0; a caller may know it.
// kept: `known` stays a flag, as a type for it would have to be lent along with every `&mut` to the words, and be no plainer.
fn clean(words: &[u32], f: usize, known: bool) -> bool
    requires { (array_at (f + 1) ≤ length words.now) × (length words.now ≤ most_words)
        × ((known ≡ true) → blank_b words.now f ≡ true) }
    ensures { result ≡ blank_b words.now f }
{
    known || blank(words, f)
}

// The first m free arrays, one after the other, where so many are found and each is clean. A caller who knows that free arrays
// are spares the look at them.
pub fn frees(words: &[u32], m: usize, known: bool) -> Option<[u32; 32]>
    requires { Bounded words.now × (1 ≤ m) × (m ≤ 32)
        × ((known ≡ true) → Blanks words.now) }
    ensures { HasFrees words.now m result }
{
    let mut all = [0; 32];
    let mut last = None;
    for i in 0..m {
        let f = free_next(words, last)?;
        if !clean(words, f, known) {
            return None;
        }
        all[i] = f as u32;
        last = Some(f);
    }
    Some(all)
}

// The array below cell i of array a, if there is one.
pub fn below(words: &[u32], a: usize, i: usize) -> Option<usize>
    requires { (array_at (a + 1) ≤ length words.now) × (length words.now ≤ most_words) × (i < cell_count) }
    ensures link { result ≡ nonzero ((arrays_of words.now).link a i) }
    ensures small { (arrays_of words.now).link a i ≤ most_arrays }
{
    array::cell::link_in(cell(words, a, i))
}

// Array a holds no candidate and no link, length 0 aside.
pub fn empty(words: &[u32], a: usize) -> bool
    requires { (array_at (a + 1) ≤ length words.now) × (length words.now ≤ most_words) }
    ensures { (result ≡ bare_b (page_of words.now a)) × (RightSlotsOf words.now a
        → result ≡ empty_b (slots_of words.now a) ((arrays_of words.now).link a)) }
{
    array::check::empty(page(words, a))
}

// Array a gets the tag x; n arrays are used then, m of them in its group.
#[tactic(auto, unfolding(crate::specs::Gained::retagged))]
fn retag(words: &mut [u32], a: usize, x: u32, n: u32, m: u32)
    requires { (1 ≤ a) × (array_at (a + 1) ≤ length words.old) × (length words.old ≤ most_words) }
    ensures { words.new ≡ retagged words.old a x n m }
{
    let to = ARRAY_WORDS * a;
    let group = (a - 1) / PER_GROUP + 1;
    words[to] = x;
    words[0] = n;
    words[group] = m;
}

// The free array a, hung below cell i of p.
pub fn gain(words: &mut [u32], p: usize, i: usize, a: usize)
    requires { Gains words.old p i a }
    ensures { GainedAny words.old words.new p i a }
{
    let from = ARRAY_WORDS * p;
    let to = from + ARRAY_WORDS;
    let group = (a - 1) / PER_GROUP + 1;
    let level = level_in(words[from]);
    let n = words[0];
    let m = words[group];
    settle::link::set_link(&mut words[from..to], i, a as u32);
    retag(
        words,
        a,
        tag_of(p, i, level + 1),
        n.wrapping_add(1),
        m.wrapping_add(1),
    );
}

// The array a, that is empty, taken from its parent.
pub fn release(words: &mut [u32], a: usize)
    requires { Releases words.old a }
    ensures { ReleasedAny words.old words.new a }
{
    let tag = tag(words, a);
    let p = parent_in(tag);
    let i = cell_in(tag);
    let from = ARRAY_WORDS * p;
    let to = from + ARRAY_WORDS;
    let group = (a - 1) / PER_GROUP + 1;
    let n = words[0];
    let m = words[group];
    settle::link::cut_link(&mut words[from..to], i);
    retag(words, a, 0, n.wrapping_sub(1), m.wrapping_sub(1));
}
