// The run of a feed of one family: records in order, one reply for each but end, until a test stops it.
#![tactic(auto)]

ghost use Rattle.std.specs.Prelude.{◌≡◌, ◌≢◌, true, ◌+◌, ◌^◌, ◌<◌, ◌≤◌, length};
ghost use Rattle.routes.specs.Family.{v4, levels, ending};
ghost use Rattle.numbers.specs.Number.{number};
ghost use Rattle.feed.specs.Records.{asked_by};
ghost use Rattle.candidates.specs.Runs.{size as size_of, role_at};
ghost use Rattle.words.specs.Table.{seen};
ghost use Rattle.families.specs.Said.{said_family, said_kind, said_role};
ghost use Rattle.replies.specs.Said.{said_reply};
ghost use Rattle.feed.specs.Runs.{HasRun, RunsTable, HasRunLocally};
ghost use Rattle.words.specs.CheckReflects.{Fits};
ghost use Rattle.feed.specs.Turns.{IsTable, AskedAny, here, Takes, TookAny};
ghost use Rattle.feed.specs.Progress.{begun, stop_number, stop_of, size_known, halts_before, Counted, told_at};

use families::{Family, Role};
use refusals::Refusal;
use replies::{Reply, accepts, put, refuses};

// Why a run stops, as document 01 numbers it.
#[derive(Clone, Copy, Debug, PartialEq, Eq)]
pub enum Stop {
    // an end, which is consumed
    End = 0,
    // no byte is left
    Dry = 1,
    // a kind that is none of the run's
    Unknown = 2,
    // a record of which bytes are missing
    Cut = 3,
    // too little room for a reply
    Room = 4,
}

impl Stop {
    // Its number in the documents, in reports and in C.
    pub fn number(self) -> u32
        ensures { result ≡ stop_number self }
    {
        self as u32
    }
}

// How far a run has come: feed bytes consumed, reply bytes written, accepted updates, refused records.
#[derive(Clone, Copy, Debug, PartialEq, Eq)]
pub struct Progress {
    pub at: usize,
    pub out: usize,
    pub accepted: usize,
    pub refused: usize,
}

// What is told of a run: its stop, feed bytes consumed, reply bytes written, accepted updates, refused records.
#[derive(Clone, Copy, Debug, PartialEq, Eq)]
pub struct Report {
    // kept: its number and no `Stop`, as the definition report_of tells it
    pub stop: u32,
    pub consumed: usize,
    pub written: usize,
    pub accepted: usize,
    pub refused: usize,
}

// Runs a family's feed on lent words and writes the replies to the front of lent bytes. Only here the words are checked: each
// record leaves a table a table.
pub fn run_of(
    words: &mut [u32],
    family: Family,
    feed: &[u8],
    reply: &mut [u8],
) -> Result<Report, Refusal>
    ensures { HasRun (said_family family) words.old feed.now reply.old
        words.new reply.new result }
{
    update::refusal(words, families::levels(family) as u32, Ok(()))?;
    Ok(run_table(words, family, feed, reply, true))
}

// An IPv4 feed.
pub fn run(words: &mut [u32], feed: &[u8], reply: &mut [u8]) -> Result<Report, Refusal>
    ensures { HasRun v4 words.old feed.now reply.old
        words.new reply.new result }
{
    run_of(words, Family::V4, feed, reply)
}

// The same without a test of the whole table: each record tests what it touches itself.
pub fn run_local_of(
    words: &mut [u32],
    family: Family,
    feed: &[u8],
    reply: &mut [u8],
) -> Result<Report, Refusal>
    ensures { HasRunLocally (said_family family) words.old feed.now reply.old
        words.new reply.new result }
{
    if words::size::misfit(words.len()) {
        return Err(Refusal::Misfit);
    }
    Ok(run_table(words, family, feed, reply, false))
}

// The run on words of a right size. A caller who knows them to be a table spares the tests of what a record touches.
fn run_table(
    words: &mut [u32],
    family: Family,
    feed: &[u8],
    reply: &mut [u8],
    known: bool,
) -> Report
    requires { Fits (length words.old) × ((known ≡ true) → IsTable (seen (levels (said_family family)) words.old)) }
    ensures { RunsTable (said_family family) words.old feed.now reply.old
        words.new reply.new result }
{
    let room = reply.len();
    let mut p = Progress::start();
    loop {
        let size = size_at(family, feed, p.at);
        match p.halt(feed, room, size) {
            Some(stop) => return p.report(stop),
            None => p = p.answer_next(words, family, feed, reply, known),
        }
    }
}

// The steps of a run, whatever its records ask for.
impl Progress {
    // Before the first record.
    pub fn start() -> Progress
        ensures { result ≡ begun }
    {
        Progress {
            at: 0,
            out: 0,
            accepted: 0,
            refused: 0,
        }
    }

    // The stop that the tests before a record find, by its bytes: a record of a kind that is none of the run's has no size.
    pub fn halt(self, feed: &[u8], room: usize, size: Option<usize>) -> Option<Stop>
        requires { (self.at ≤ length feed.now) × (self.out ≤ room) }
        ensures { stop_of result ≡ halts_before feed.now room self.at self.out size }
    {
        if feed.len() <= self.at {
            return Some(Stop::Dry);
        }
        let Some(n) = size else {
            return Some(Stop::Unknown);
        };
        if feed.len() - self.at < n {
            return Some(Stop::Cut);
        }
        if feed[self.at] == 0 {
            return Some(Stop::End);
        }
        if room - self.out < 5 {
            return Some(Stop::Room);
        }
        None
    }

    // How far the run has come after a record of so many bytes, whose answer is written here. What is done counts as an
    // accepted update where the record is one.
    pub fn after(self, size: usize, reply: &mut [u8], answer: Reply, update: bool) -> Progress
        requires { (self.at + size < 2 ^ 64) × (self.out + 5 ≤ length reply.old)
            × (self.accepted < 2 ^ 63) × (self.refused < 2 ^ 63) }
        ensures { Counted self size (said_reply answer) update result reply.old reply.new }
    {
        Progress {
            at: self.at + size,
            out: put(reply, self.out, answer),
            accepted: self.accepted + if update { accepts(answer) } else { 0 },
            refused: self.refused + refuses(answer),
        }
    }

    // What is told of a run that stops there: an end is consumed, another record that stops it is not.
    pub fn report(self, stop: Stop) -> Report
        requires { self.at < 2 ^ 63 }
        ensures { result ≡ told_at self (stop_number stop) }
    {
        self.report_number(stop.number())
    }

    // The same of a stop's number, which may be any: 0 is that of an end.
    pub fn report_number(self, stop: u32) -> Report
        requires { self.at < 2 ^ 63 }
        ensures { result ≡ told_at self stop }
    {
        Report {
            stop,
            consumed: self.at + usize::from(stop == 0),
            written: self.out,
            accepted: self.accepted,
            refused: self.refused,
        }
    }

    // Answers the record that is next, and hands back how far the run has come then.
    fn answer_next(
        self,
        words: &mut [u32],
        family: Family,
        feed: &[u8],
        reply: &mut [u8],
        known: bool,
    ) -> Progress
        requires { Takes (said_family family) self words.old feed.now reply.old
            × ((known ≡ true) → IsTable (seen (levels (said_family family)) words.old)) }
        ensures { TookAny (said_family family) self words.old feed.now reply.old
            result words.new reply.new }
    {
        let role = families::role_of(family, feed[self.at]).unwrap();
        let answer = Record::read(family, role, feed, self.at).answer(words, known);
        self.after(size(family, role), reply, answer, true)
    }
}

// The bytes of the record that begins at `at`, where its kind is one of the family's.
fn size_at(family: Family, feed: &[u8], at: usize) -> Option<usize>
    ensures { at < length feed.now → result ≡ size_known (said_family family) (role_at (said_family family) feed.now at) }
{
    let role = families::role_of(family, *feed.get(at)?)?;
    Some(size(family, role))
}

// The bytes of a record of a role, the kind's own included.
pub fn size(family: Family, role: Role) -> usize
    ensures { (result ≡ size_of (said_family family) (said_role role)) × (0 < result) × (result ≤ 22) }
{
    let levels = families::levels(family);
    match role {
        Role::Ending => 1,
        Role::Announcing => levels + 4,
        Role::Withdrawing => levels + 2,
        Role::Looking => levels + 1,
        Role::AnnouncingFor => levels + 6,
        Role::WithdrawingFor => levels + 3,
    }
}

// The same where a record's kind may be none of the family's: then it is the kind's byte alone.
pub fn size_of_kind(family: Family, role: Option<Role>) -> usize
    ensures { (result ≡ size_of (said_family family) (said_kind role)) × (0 < result) × (result ≤ 22) }
{
    match role {
        Some(role) => size(family, role),
        None => 1,
    }
}

// What a record asks for. An update that names no feed is of feed 1, with preference 0.
#[derive(Clone, Copy, Debug, PartialEq, Eq)]
pub enum Ask {
    Announce {
        length: u32,
        hop: u32,
        feed: u32,
        preference: u8,
    },
    Withdraw {
        length: u32,
        feed: u32,
    },
    Look,
}

// A record of a feed: the bytes of its address, lent where they stand, and what it asks for.
#[derive(Clone, Copy)]
pub struct Record<'a> {
    pub address: &'a [u8],
    pub asks: Ask,
    ghost some: { 1 ≤ length address.now },
    ghost few: { length address.now ≤ 16 },
}

impl<'a> Record<'a> {
    // Reads the record of a role that begins at `at`.
    pub fn read(family: Family, role: Role, feed: &'a [u8], at: usize) -> Record<'a>
        requires { (said_role role ≢ ending) × (at + size_of (said_family family) (said_role role) ≤ length feed.now) }
        ensures { (length result.address.now ≡ levels (said_family family))
            × (asked_by result.asks (number result.address.now) ≡ here (said_family family) feed.now at (said_role role)) }
    {
        let end = at + 1 + families::levels(family);
        let address = &feed[at + 1..end];
        let asks = match role {
            Role::Announcing => Ask::Announce {
                length: feed[end] as u32,
                hop: numbers::two_at(feed, end + 1),
                feed: 1,
                preference: 0,
            },
            Role::AnnouncingFor => Ask::Announce {
                length: feed[end] as u32,
                hop: numbers::two_at(feed, end + 1),
                feed: feed[end + 3] as u32,
                preference: feed[end + 4],
            },
            Role::Withdrawing => Ask::Withdraw {
                length: feed[end] as u32,
                feed: 1,
            },
            Role::WithdrawingFor => Ask::Withdraw {
                length: feed[end] as u32,
                feed: feed[end + 1] as u32,
            },
            Role::Looking => Ask::Look,
            // the run stops before it
            Role::Ending => unreachable!(),
        };
        Record { address, asks }
    }

    // Its answer. A caller who knows the words to be a table spares the tests of what it touches.
    fn answer(self, words: &mut [u32], known: bool) -> Reply
        requires { Fits (length words.old)
            × ((known ≡ true) → IsTable (seen (length self.address.now) words.old)) }
        ensures { AskedAny (length self.entry.address.now) words.old
            (asked_by self.entry.asks (number self.entry.address.now)) (said_reply result) words.new }
    {
        let address = self.address;
        match self.asks {
            Ask::Announce {
                length,
                hop,
                feed,
                preference,
            } => update::announce_with(words, address, length, hop, feed, preference, known),
            Ask::Withdraw { length, feed } => update::withdraw_with(
                words, address, length, feed, known,
            ),
            Ask::Look => lookup::lookup_on(words, address),
        }
    }
}
