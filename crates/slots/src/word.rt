// The word of one feed's candidate: its preference and its hop, or 0 for none.
ghost use Rattle.std.specs.Prelude.{◌≡◌, ◌<◌, ◌≤◌, eqb};
ghost use Rattle.sizes.specs.Sizes.{hop_bound};
ghost use Rattle.slots.specs.Word.{word_of, preference_in, hop_in, right_word_b};

use sizes::HOP_BOUND;

// No word of a candidate reaches this.
const WORD_BOUND: u32 = 16777216;

// The word of a preference and a hop.
pub fn word_of(preference: u32, hop: u32) -> u32
    requires { (preference ≤ 255) × (hop < hop_bound) }
    ensures { result ≡ word_of preference hop }
{
    preference * HOP_BOUND + hop
}

// The preference in a word.
pub fn preference_in(word: u32) -> u32
    ensures { (result ≡ preference_in word) × (result < hop_bound) }
{
    word / HOP_BOUND
}

// The hop in a word, 0 where there is no candidate.
pub fn hop_in(word: u32) -> u32
    ensures { (result ≡ hop_in word) × (result < hop_bound) }
{
    word % HOP_BOUND
}

// 0 where the word is 0 or has a hop from 1 to 65,535 and a preference up to 255.
// kept: a number, as it is one choice, and those of many words are joined by or; a Boolean takes three tests of each word.
pub fn fault(word: u32) -> u32
    ensures { eqb result 0 ≡ right_word_b word }
{
    if word % HOP_BOUND == 0 {
        word
    } else {
        word / WORD_BOUND
    }
}
