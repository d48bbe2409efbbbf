// Totals of arrays: for each slot how many prefixes are held at it and below it. Here those of one page.
#![tactic(auto)]

ghost use Rattle.std.specs.Prelude.{◌≡◌, ◌<◌, length};
ghost use Rattle.sizes.specs.Sizes.{array_words, slot_end};
ghost use Rattle.totals.specs.Up.{added_up};

use sizes::TOTALS_AT;

// The totals of a slot and of those above it in a page, each with a number added; with 2^32 - 1 added they fall by 1.
// kept: `&mut [u32]` to write: of an array that std's `as_mut_array` lends a caller cannot prove what the words end as.
pub fn add_up(page: &mut [u32], slot: usize, by: u32)
    requires { (length page.old ≡ array_words) × (slot < slot_end) }
    ensures { page.new ≡ added_up 9 page.old slot by }
{
    let mut s = slot;
    while s != 0 {
        let at = TOTALS_AT + s;
        page[at] = page[at].wrapping_add(by);
        s /= 2;
    }
}
