// Words that are 0.
ghost use Rattle.std.specs.Prelude.{◌≡◌, ◌+◌, ◌≤◌, length};
ghost use Rattle.logic.specs.Every.{all_b};
ghost use Rattle.slots.specs.Zeros.{zero_at};

// The n words from `from` on are all 0. No early way out: so the loop reads several words at once.
pub fn zeros(words: &[u32], from: usize, n: usize) -> bool
    requires { from + n ≤ length words.now }
    ensures { result ≡ all_b (zero_at words.now from) n }
{
    let mut any: u32 = 0;
    for i in 0..n {
        any |= words[from + i];
    }
    any == 0
}
