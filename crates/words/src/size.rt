// How many words a table has, and how many arrays.
ghost use Rattle.std.specs.Prelude.{◌≡◌, ◌≤◌, length};
ghost use Rattle.sizes.specs.Sizes.{least_words};
ghost use Rattle.routes.specs.Seen.{misfits};
ghost use Rattle.words.specs.Words.{array_count};

use sizes::{ARRAY_WORDS, LEAST_WORDS, MOST_WORDS};

// The number of words is not that of a table.
pub fn misfit(n: usize) -> bool
    ensures { result ≡ misfits n }
{
    n % ARRAY_WORDS != 0 || n < LEAST_WORDS || n > MOST_WORDS
}

// How many arrays the words hold besides the header.
pub fn arrays_in(words: &[u32]) -> usize
    requires { least_words ≤ length words.now }
    ensures { result ≡ array_count words.now }
{
    words.len() / ARRAY_WORDS - 1
}
