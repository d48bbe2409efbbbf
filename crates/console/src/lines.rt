// A line for each record replied to, from the bytes of the record and of its reply.
ghost use Rattle.std.specs.Prelude.{◌<◌, length};
ghost use Rattle.std.specs.Iterator.{at_most};

use crate::addresses::Address;
use crate::reads::{byte_at, two_at};
use families::{Family, Role};
use std::fmt;

// What a record asked for, with its prefix or address as sent, and what it was answered: its bytes and its reply's come first.
#[derive(Drop)]
pub(crate) struct Line<'a> {
    pub(crate) family: Family,
    pub(crate) record: &'a [u8],
    pub(crate) reply: &'a [u8],
}

impl fmt::Display for Line<'_> {
    fn fmt<W: fmt::Write>(&self, f: &mut fmt::Formatter<W>) -> fmt::Result {
        let Line {
            family,
            record,
            reply,
        } = *self;
        let role = families::role_of(family, byte_at(record, 0));
        let asked = verb(role);
        let address = Address {
            family,
            bytes: record,
        };
        write!(f, "{asked}{address}")?;
        if role != Some(Role::Looking) {
            let length = byte_at(record, 1 + families::levels(family));
            write!(f, "/{length}")?;
        }
        answer(reply, f)
    }
}

fn verb(role: Option<Role>) -> &'static str {
    match role {
        Some(Role::Looking) => "lookup ",
        Some(Role::Announcing | Role::AnnouncingFor) => "announce ",
        _ => "withdraw ",
    }
}

fn answer<W: fmt::Write>(reply: &[u8], f: &mut fmt::Formatter<W>) -> fmt::Result {
    let [second, fourth, last] = [1, 3, 4].map(|i| byte_at(reply, i));
    let hop = two_at(reply, 1);
    let cells = two_at(reply, 3);
    match byte_at(reply, 0) {
        19 => write!(f, " refused {second}"),
        18 => write!(f, " none block {second}"),
        17 => write!(f, " via {hop} length {fourth} block {last}"),
        _ => write!(f, " via {hop} cells {cells}"),
    }
}

// The lines of the records that are left, as far as there are replies.
#[derive(Drop)]
pub(crate) struct Lines<'a> {
    pub(crate) family: Family,
    pub(crate) feed: &'a [u8],
    pub(crate) replies: &'a [u8],
}

impl<'a> Iterator for Lines<'a> {
    type Item = Line<'a>;

    ghost remaining = { λ s. at_most (length s.feed.now) };

    fn next(&mut self) -> Option<Line<'a>> {
        let line = Line {
            family: self.family,
            record: self.feed,
            reply: self.replies,
        };
        let kind = *self.feed.first()?;
        let answer = *self.replies.first()?;
        let n = feed::size_of_kind(self.family, families::role_of(self.family, kind));
        self.feed = &self.feed[n.min(self.feed.len())..];
        self.replies = &self.replies[reply_size(answer).min(self.replies.len())..];
        Some(line)
    }
}

// The bytes of a reply of a kind, the kind's own included.
fn reply_size(kind: u8) -> usize
    ensures { 0 < result }
{
    match kind {
        16 | 17 => 5,
        _ => 2,
    }
}
