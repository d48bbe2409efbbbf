// The words that are checked, and what is read of an array of them.
ghost use Rattle.std.specs.Prelude.{◌≡◌, ◌<◌, ◌≤◌, slice_index};
ghost use Rattle.sizes.specs.Sizes.{slot_end, cell_count, cell_at};
ghost use Rattle.logic.specs.Nonzero.{nonzero};
ghost use Rattle.array.specs.Frame.{page_of};
ghost use Rattle.words.specs.Words.{arrays_of, totals_of};
ghost use Rattle.words.specs.Table.{blank_b};
ghost use Rattle.words.specs.Size.{Sized};
ghost use Rattle.audit.specs.Won.{WonOf};

use sizes::{ARRAY_WORDS, SLOT_END};
use words::part;

// Words of a right size, how many arrays they hold, and of how many levels they are to be a table.
#[derive(Clone, Copy)]
pub(crate) struct Lent<'a> {
    pub(crate) words: &'a [u32],
    pub(crate) arrays: usize,
    pub(crate) levels: u32,
    ghost sized: { Sized words.now arrays },
}

impl<'a> Lent<'a> {
    // The tag of array a.
    pub(crate) fn tag(&self, a: usize) -> u32
        requires { a ≤ self.now.arrays }
        ensures { result ≡ (arrays_of self.now.words.now).tag a }
    {
        part::tag(self.words, a)
    }

    // The words of array a.
    pub(crate) fn page(&self, a: usize) -> &'a [u32; ARRAY_WORDS]
        requires { a ≤ self.now.arrays }
        ensures { result.now ≡ page_of self.now.words.now a }
    {
        part::page(self.words, a)
    }

    // The slots, cells and totals of array a are 0.
    pub(crate) fn blank(&self, a: usize) -> bool
        requires { a ≤ self.now.arrays }
        ensures { result ≡ blank_b self.now.words.now a }
    {
        part::blank(self.words, a)
    }

    // The word of cell i of array a.
    pub(crate) fn cell(&self, a: usize, i: usize) -> u32
        requires { (a ≤ self.now.arrays) × (i < cell_count) }
        ensures { result ≡ slice_index self.now.words.now (cell_at a i) }
    {
        part::cell(self.words, a, i)
    }

    // The array below cell i of array a, if there is one.
    pub(crate) fn below(&self, a: usize, i: usize) -> Option<usize>
        requires { (a ≤ self.now.arrays) × (i < cell_count) }
        ensures { result ≡ nonzero ((arrays_of self.now.words.now).link a i) }
    {
        words::below(self.words, a, i)
    }

    // The total of slot s of array a, as usize, in which no sum of foreign totals wraps.
    pub(crate) fn total(&self, a: usize, s: usize) -> usize
        requires { (a ≤ self.now.arrays) × (s < slot_end) }
        ensures { (result ≡ totals_of self.now.words.now a s) × (result < 4294967296) }
    {
        wide(words::total::total(self.words, a, s))
    }
}

// One of the arrays, by its number, and the winning hop of each of its slots.
#[derive(Clone, Copy)]
pub(crate) struct Array<'a> {
    pub(crate) lent: Lent<'a>,
    pub(crate) number: usize,
    pub(crate) won: &'a [u32; SLOT_END],
    ghost within: { number ≤ lent.arrays },
    ghost hops: { WonOf lent.words.now number won.now },
}

fn wide(x: u32) -> usize
    ensures { (result ≡ x) × (result < 4294967296) }
{
    x as usize
}
