// Bytes read from a file, and bytes of a record or a reply as numbers. What is past the end counts as 0.
ghost use Rattle.std.specs.Prelude.{◌+◌, ◌*◌, ◌<◌, ◌≤◌, ◌≡◌, get_or, length, take, IfOk};
ghost use Rattle.std.specs.Io.KnownBytes.{Consumes, IsAtEnd};

use super::page::{PAGE_BYTES, Page, print};
use std::io;
use std::io::{Cursor, Read};

// Hands a file's bytes on with a page, and prints as one what is on it at the end. A file of more than 4,096 bytes prints
// `too long` alone.
pub(crate) fn with_feed<
    R: Print,
    I: Read + Drop,
    F: FnOnce(&[u8], &mut Page<'_>) -> io::Result<()> + Drop,
>(rt: &R, mut file: I, run: F) -> io::Result<()>
    requires { F.IsAlwaysCallable run }
{
    let mut input = [0u8; 4097];
    let n = fill(&mut file, &mut input)?;
    if n > 4096 {
        return rt.write_all(b"too long\n");
    }
    let mut text = [0u8; PAGE_BYTES];
    let mut page = Cursor::new(&mut text[..]);
    run(&input[..n], &mut page)?;
    print(rt, &page)
}

// Fills the bytes from the front, as far as the file goes, and hands back how many it gave.
pub(crate) fn fill<I: Read>(file: &mut I, input: &mut [u8]) -> io::Result<usize>
    ensures within { IfOk result (λ n. n ≤ length input.new) }
    ensures bytes { IfOk result (λ n. Consumes (I.remaining file.old) (I.remaining file.new) (take n input.new)) }
    ensures whole { IfOk result (λ n. n < length input.new → IsAtEnd (I.remaining file.new)) }
{
    let mut n = 0;
    while n < input.len() {
        let more = file.read(&mut input[n..])?;
        if more == 0 {
            return Ok(n);
        }
        n += more;
    }
    Ok(n)
}

pub(crate) fn byte_at(bytes: &[u8], i: usize) -> u8
    ensures { result ≡ get_or bytes.now i 0 }
{
    bytes.get(i).copied().unwrap_or(0)
}

// Two bytes, the high one first.
pub(crate) fn two_at(bytes: &[u8], i: usize) -> u16
    requires { i < 32 }
    ensures { result ≡ get_or bytes.now i 0 * 256 + get_or bytes.now (i + 1) 0 }
{
    u16::from_be_bytes([byte_at(bytes, i), byte_at(bytes, i + 1)])
}
