// The C calls of bindings/c/toggleash_shortest.h: each is the function of its name in `shortener`, exported, with the same
// clauses. A slice passes as a pointer and a length. No call asks anything of its caller, since nothing would check it.
#![tactic(auto)]

ghost use Rattle.std.specs.Prelude.{◌≡◌};
ghost use Rattle.shortener.specs.Face.{HasWritten};

use answers::Written;

// The version is in the name, so that a caller made for another one does not link.
#[unsafe(no_mangle)]
pub extern "C" fn toggleash_shortest_version_6() -> u32
    ensures { result ≡ 6 }
{
    shortener::toggleash_shortest_version_6()
}

#[unsafe(no_mangle)]
pub extern "C" fn toggleash_shortest(
    words: &[u32],
    scratch: &mut [u32],
    buffer: &mut [u8],
) -> Written
    ensures { HasWritten words.now scratch.old buffer.old
        result scratch.new buffer.new }
{
    shortener::toggleash_shortest(words, scratch, buffer)
}
