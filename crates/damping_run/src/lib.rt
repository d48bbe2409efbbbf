// The run of an IPv4 feed through a front before a table: records and ticks in order, one reply for each, until a test stops it.
#![tactic(auto)]

pub mod ask; // a record or a tick answered

ghost use Rattle.std.specs.Prelude.{◌≡◌, ◌≤◌, length, Ok};
ghost use Rattle.front.specs.Runs.{halts};
ghost use Rattle.feed.specs.Progress.{stop_of};
ghost use Rattle.damping.specs.Locally.{Ready};
ghost use Rattle.damping_run.specs.Runs.{HasRun};
ghost use Rattle.damping_run.specs.Locally.{RanLocally, HasRunLocally};
ghost use Rattle.damping_run.specs.Turns.{Takes, Took};

use ask::TICK;
use feed::{Progress, Report, Stop};
use refusals::Refusal;

// Runs a feed on the lent words of a front and of a table, and writes the replies to the front of lent bytes. Only here the words
// are checked: each record leaves a front a front and a table a table.
pub fn run(
    front: &mut [u32],
    words: &mut [u32],
    feed: &[u8],
    reply: &mut [u8],
) -> Result<Report, Refusal>
    ensures { HasRun front.old words.old feed.now reply.old
        front.new words.new reply.new result }
{
    damping::refusal(front, words, Ok(()))?;
    Ok(run_with(front, words, feed, reply, true))
}

// The same without a test of the whole table: each record, and each installation of a tick, tests what it touches itself.
pub fn run_local(
    front: &mut [u32],
    words: &mut [u32],
    feed: &[u8],
    reply: &mut [u8],
) -> Result<Report, Refusal>
    ensures { HasRunLocally front.old words.old feed.now reply.old
        front.new words.new reply.new result }
{
    damping::refusal_local(front, words, Ok(()))?;
    Ok(run_with(front, words, feed, reply, false))
}

// The run on a front and any words of a right size.
fn run_with(
    front: &mut [u32],
    words: &mut [u32],
    feed: &[u8],
    reply: &mut [u8],
    known: bool,
) -> Report
    requires { Ready front.old words.old known }
    ensures { RanLocally front.old words.old feed.now reply.old
        front.new words.new reply.new (Ok result) }
{
    let room = reply.len();
    let mut p = Progress::start();
    loop {
        match halt(p, feed, room) {
            Some(stop) => return p.report(stop),
            None => p = answer_next(p, front, words, feed, reply, known),
        }
    }
}

// ---- the steps of a run, for a caller who looks on between them

// The stop that the tests before a record or a tick find.
pub fn halt(p: Progress, feed: &[u8], room: usize) -> Option<Stop>
    requires { (p.at ≤ length feed.now) × (p.out ≤ room) }
    ensures { stop_of result ≡ halts feed.now room p.at p.out }
{
    p.halt(feed, room, ask::size_at(feed, p.at))
}

// Answers the record or tick that is next, and hands back how far the run has come then. A tick, though its reply is that of an
// update done, is none.
pub fn answer_next(
    p: Progress,
    front: &mut [u32],
    words: &mut [u32],
    feed: &[u8],
    reply: &mut [u8],
    known: bool,
) -> Progress
    requires { Takes p front.old words.old feed.now reply.old known }
    ensures { Took p front.old words.old feed.now reply.old
        result front.new words.new reply.new }
{
    let size = ask::size_at(feed, p.at).unwrap();
    let answer = ask::answer(front, words, feed, p.at, known);
    p.after(size, reply, answer, feed[p.at] != TICK)
}
