// The program's body: reads a feed, runs it on lent words and prints what came of it.
#![tactic(auto)]

mod addresses;
mod lines;
mod page;
mod reads;
pub mod through; // the same through a front

use families::Family;
use feed::Report;
use lines::Lines;
use page::Page;
use std::io;
use std::io::{Read, Write};

// Reads a family's feed of at most 4,096 bytes from an open file, runs it on the lent words and prints a line for each record
// replied to, and two lines on the whole. A longer input prints `too long` alone.
pub fn show<R: Print, I: Read + Drop>(
    rt: &R,
    file: I,
    family: Family,
    words: &mut [u32],
    reply: &mut [u8],
) -> io::Result<()> {
    reads::with_feed(
        rt,
        file,
        |feed, page| match feed::run_of(words, family, feed, reply) {
            Ok(report) => {
                let replies = &reply[..report.written];
                for line in (Lines {
                    family,
                    feed,
                    replies,
                }) {
                    writeln!(page, "{line}")?;
                }
                end(page, family, words, report)
            }
            Err(why) => refused(page, why.number()),
        },
    )
}

fn refused(page: &mut Page<'_>, number: u32) -> io::Result<()> {
    writeln!(page, "refused {number}")
}

// The list at the end: its routes, which are its candidates, and the arrays that it needs. Then the run's counts, its stop and
// the bytes consumed.
fn end(page: &mut Page<'_>, family: Family, words: &[u32], report: Report) -> io::Result<()> {
    match audit::check_of(words, families::levels(family) as u32) {
        Ok(audit::Counts { routes, arrays }) => write!(page, "routes {routes} arrays {arrays}")?,
        Err(why) => {
            let number = why.number();
            write!(page, "refused {number}")?;
        }
    }
    let Report {
        stop,
        consumed,
        accepted,
        refused,
        ..
    } = report;
    writeln!(
        page,
        " accepted {accepted} refused {refused}\nstopped {stop} at {consumed}"
    )
}
