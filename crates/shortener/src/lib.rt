// The shortest list for a program in C: a library of its own, above `shorten`, which `shortener_c` exports.
#![tactic(auto)]

ghost use Rattle.std.specs.Prelude.{◌≡◌};
ghost use Rattle.shortener.specs.Face.{HasWritten};

use answers::Written;

// The version of the table's words and of this call, in the name: that of `toggleash`.
pub fn toggleash_shortest_version_6() -> u32
    ensures { result ≡ 6 }
{
    6
}

// Writes the shortest list that forwards as the table does, with a scratch of at least as many words.
pub fn toggleash_shortest(words: &[u32], scratch: &mut [u32], buffer: &mut [u8]) -> Written
    ensures { HasWritten words.now scratch.old buffer.old
        result scratch.new buffer.new }
{
    shorten::shorten(words, scratch, buffer).into()
}
