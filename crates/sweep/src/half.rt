// Where the lower half of a prefix stands.
ghost use Rattle.std.specs.Prelude.{◌≡◌, ◌≢◌, MatchOption};
ghost use Rattle.sweep.specs.Walk.{low_of};
ghost use Rattle.sweep.specs.Asked.{Looks};

// The slot of the lower half of the prefix in `slot`, with some bits below it; an address has no halves.
pub(crate) fn lower(words: &[u32], slot: usize, bits: usize) -> Option<usize>
    requires { Looks words.now slot bits }
    ensures { MatchOption result (low_of words.now bits slot ≡ 0)
        (λ low. (low ≡ low_of words.now bits slot) × (low ≢ 0)) }
{
    if bits == 0 {
        return None;
    }
    words::part::half(words, slot)
}
