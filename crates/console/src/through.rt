// The program's body through a front. The run is driven a step at a time, so that after each tick the candidates held back can be
// counted: the front and the table are tested once, at its start.
use super::lines::Line;
use super::page::{Page, turn_if_full};
use super::{end, reads, refused};
use damping::held;
use damping_run::ask::TICK;
use damping_run::{answer_next, halt};
use families::Family;
use feed::Progress;
use std::io;
use std::io::{Read, Write};

// Reads an IPv4 feed of at most 4,096 bytes, with ticks, from an open file, runs it through the lent words of a front and of a
// table, and prints the lines of the program, with one for each tick.
pub fn show<R: Print, I: Read + Drop>(
    rt: &R,
    file: I,
    front: &mut [u32],
    words: &mut [u32],
    reply: &mut [u8],
) -> io::Result<()> {
    reads::with_feed(
        rt,
        file,
        |feed, page| run(rt, page, front, words, feed, reply),
    )
}

// There may be as many ticks as the feed has bytes, with lines of up to 20 bytes: then a page is full before the end.
fn run<R: Print>(
    rt: &R,
    page: &mut Page<'_>,
    front: &mut [u32],
    words: &mut [u32],
    feed: &[u8],
    reply: &mut [u8],
) -> io::Result<()> {
    if let Err(why) = damping::refusal(front, words, Ok(())) {
        return refused(page, why.number());
    }
    let room = reply.len();
    let mut p = Progress::start();
    loop {
        turn_if_full(rt, page)?;
        if let Some(stop) = halt(p, feed, room) {
            return end(page, Family::V4, words, p.report(stop));
        }
        let next = answer_next(p, front, words, feed, reply, true);
        line(page, front, &feed[p.at..], &reply[p.out..])?;
        p = next;
    }
}

// The line of the record or tick that was answered last.
fn line(page: &mut Page<'_>, front: &[u32], record: &[u8], reply: &[u8]) -> io::Result<()> {
    if record.first() == Some(&TICK) {
        let back = held::check(front).map_or(0, |held| held.back);
        return writeln!(page, "tick held back {back}");
    }
    let line = Line {
        family: Family::V4,
        record,
        reply,
    };
    writeln!(page, "{line}")
}
