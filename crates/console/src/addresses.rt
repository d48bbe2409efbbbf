// The address of a record as text, from the record's bytes: IPv4's as a.b.c.d, IPv6's as RFC 5952 has it.
ghost use Rattle.std.specs.Prelude.{◌≤◌, ◌<◌, ◌≡◌};
ghost use Rattle.console.specs.Groups.{group as group_of, FirstLongest, Goes, Longer};

use crate::reads::{byte_at, two_at};
use families::Family;
use std::fmt;
use std::ops::Range;

// The address after a record's kind.
#[derive(Drop)]
pub(crate) struct Address<'a> {
    pub(crate) family: Family,
    pub(crate) bytes: &'a [u8],
}

impl fmt::Display for Address<'_> {
    fn fmt<W: fmt::Write>(&self, f: &mut fmt::Formatter<W>) -> fmt::Result {
        match self.family {
            Family::V4 => dotted(self.bytes, f),
            Family::V6 => grouped(self.bytes, f),
        }
    }
}

fn dotted<W: fmt::Write>(bytes: &[u8], f: &mut fmt::Formatter<W>) -> fmt::Result {
    let [a, b, c, d] = [1, 2, 3, 4].map(|i| byte_at(bytes, i));
    write!(f, "{a}.{b}.{c}.{d}")
}

// Eight groups of 16 bits with a colon between each two. Where two or more zero groups stand together, `::` stands for the
// longest stretch of them.
// kept: not by std's Ipv6Addr, which writes an address mapped from IPv4 in dots
fn grouped<W: fmt::Write>(bytes: &[u8], f: &mut fmt::Formatter<W>) -> fmt::Result {
    let zeros = longest(bytes);
    if zeros.len() < 2 {
        return groups(bytes, 0..8, f);
    }
    groups(bytes, 0..zeros.start, f)?;
    write!(f, "::")?;
    groups(bytes, zeros.end..8, f)
}

// The longest stretch of zero groups, of equally long ones the first.
fn longest(bytes: &[u8]) -> Range<usize>
    ensures { FirstLongest (group_of bytes.now) 8 result.start result.end }
{
    let mut best = 0..0;
    let mut from = 0;
    for i in 0..8 {
        from = start(group(bytes, i), from, i);
        best = longer(best, from..i + 1);
    }
    best
}

// Where the stretch of zero groups starts that ends with a group: it goes on, or is empty after another group.
fn start(group: u16, from: usize, i: usize) -> usize
    requires { i < 8 }
    ensures { Goes group from i result }
{
    if group == 0 { from } else { i + 1 }
}

// The first stretch, or the next one where that is longer.
fn longer(first: Range<usize>, next: Range<usize>) -> Range<usize>
    ensures { Longer first.start first.end next.start next.end result.start result.end }
{
    if next.len() <= first.len() {
        return first;
    }
    next
}

// Groups of the address, a colon between each two.
fn groups<W: fmt::Write>(
    bytes: &[u8],
    these: Range<usize>,
    f: &mut fmt::Formatter<W>,
) -> fmt::Result
    requires { these.end ≤ 8 }
{
    for i in these.start..these.end {
        if i != these.start {
            write!(f, ":")?;
        }
        let group = group(bytes, i);
        write!(f, "{group:x}")?;
    }
    Ok(())
}

// A group of the address, which stands after the kind.
fn group(bytes: &[u8], i: usize) -> u16
    requires { i < 8 }
    ensures { result ≡ group_of bytes.now i }
{
    two_at(bytes, 1 + 2 * i)
}
