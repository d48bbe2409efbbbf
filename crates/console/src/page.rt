// What is printed, a page at a time: lines are put on it one after the other, and it is printed as one.
ghost use Rattle.std.specs.Prelude.{◌+◌, ◌≤◌, OnOk};
ghost use Rattle.std.specs.Io.Cursor.{cursor_position};

use std::io;
use std::io::Cursor;

// No record has a longer line for its length than a lookup of IPv4, 52 bytes for 5: but for ticks, all lines are under 43,000
// bytes, and go on one page.
pub(crate) type Page<'a> = Cursor<&'a mut [u8]>;

pub(crate) const PAGE_BYTES: usize = 65536;

// More than a record's line has, and more than the two lines on the whole.
const LINE_BYTES: u64 = 256;

// Prints the page and begins it anew, where the next line might not go on it.
pub(crate) fn turn_if_full<R: Print>(rt: &R, page: &mut Page<'_>) -> io::Result<()>
    ensures { OnOk result (cursor_position page.new + 256 ≤ 65536) }
{
    if page.position() > PAGE_BYTES as u64 - LINE_BYTES {
        print(rt, page)?;
        page.set_position(0);
    }
    Ok(())
}

// Prints what is on the page.
pub(crate) fn print<R: Print>(rt: &R, page: &Page<'_>) -> io::Result<()> {
    let text = page.get_ref();
    let k = (page.position() as usize).min(text.len());
    rt.write_all(&text[..k])
}
