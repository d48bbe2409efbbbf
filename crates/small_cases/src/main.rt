// Document 01's small cases by the calls themselves, for feed 1 and with preference 0: P1 to P12, and the case of four arrays.
// A line for each call tells its case, what was sent, the answer, and the arrays that the check then counts.
#![tactic(auto)]

use audit::Counts;
use replies::Reply;
use std::io;
use std::net::Ipv4Addr;

fn main(rt: HostRuntime) -> io::Result<()> {
    let mut one = [0u32; 6144];
    let mut four = [0u32; 15360];
    found(&rt, &mut one)?;
    covered(&rt, &mut one)?;
    covered_whole(&rt, &mut one)?;
    deep(&rt, &mut four)?;
    level_2(&rt, &mut four)?;
    refused(&rt, &mut one)?;
    freed(&rt, &mut four)
}

// P1 to P3: from the empty list.
fn found(rt: &impl Print, words: &mut [u32]) -> io::Result<()> {
    let _ = audit::clear(words);
    lookup(rt, words, "P1", 0x00000000)?;
    announce(rt, words, "P2", 0x00000000, 0, 5)?;
    lookup(rt, words, "P2", 0xFFFFFFFF)?;
    let _ = audit::clear(words);
    announce(rt, words, "P3", 0x80000000, 1, 5)
}

// P4: what a longer route of the array covers does not count.
fn covered(rt: &impl Print, words: &mut [u32]) -> io::Result<()> {
    let _ = audit::clear(words);
    announce(rt, words, "P4", 0x0A000000, 8, 5)?;
    announce(rt, words, "P4", 0x0A000000, 7, 6)
}

// P5: no cell is left.
fn covered_whole(rt: &impl Print, words: &mut [u32]) -> io::Result<()> {
    let _ = audit::clear(words);
    announce(rt, words, "P5", 0x0A000000, 8, 5)?;
    announce(rt, words, "P5", 0x0B000000, 8, 5)?;
    announce(rt, words, "P5", 0x0A000000, 7, 6)
}

// P6 to P8: arrays down to the last level.
fn deep(rt: &impl Print, words: &mut [u32]) -> io::Result<()> {
    let _ = audit::clear(words);
    announce(rt, words, "P6", 0x0A010180, 25, 5)?;
    announce(rt, words, "P7", 0x0A010400, 22, 5)?;
    let _ = audit::clear(words);
    announce(rt, words, "P8", 0xFFFFFFFF, 32, 5)
}

// P9: the cells of an array two below the root.
fn level_2(rt: &impl Print, words: &mut [u32]) -> io::Result<()> {
    let _ = audit::clear(words);
    announce(rt, words, "P9", 0x0A010400, 22, 5)?;
    announce(rt, words, "P9", 0x0A010000, 20, 6)
}

// P10 to P12: the first number that applies.
fn refused(rt: &impl Print, words: &mut [u32]) -> io::Result<()> {
    let _ = audit::clear(words);
    announce(rt, words, "P10", 0x0A000000, 33, 0)?;
    announce(rt, words, "P11", 0x0A000001, 24, 0)?;
    announce(rt, words, "P12", 0x0A000000, 8, 5)?;
    announce(rt, words, "P12", 0x0A000000, 9, 5)
}

// Room that a withdrawal frees is usable at once.
fn freed(rt: &impl Print, words: &mut [u32]) -> io::Result<()> {
    let _ = audit::clear(words);
    announce(rt, words, "A = 4", 0x0A010180, 25, 5)?;
    announce(rt, words, "A = 4", 0x0A010200, 25, 6)?;
    withdraw(rt, words, "A = 4", 0x0A010180, 25)?;
    announce(rt, words, "A = 4", 0x0A010200, 25, 6)
}

fn announce(
    rt: &impl Print,
    words: &mut [u32],
    case: &str,
    address: u32,
    length: u32,
    hop: u32,
) -> io::Result<()> {
    let answer = update::announce(words, address, length, hop, 1, 0);
    let address = Ipv4Addr::from(address);
    print!(rt; "{case} announce {address}/{length}")?;
    answered(rt, words, answer)
}

fn withdraw(
    rt: &impl Print,
    words: &mut [u32],
    case: &str,
    address: u32,
    length: u32,
) -> io::Result<()> {
    let answer = update::withdraw(words, address, length, 1);
    let address = Ipv4Addr::from(address);
    print!(rt; "{case} withdraw {address}/{length}")?;
    answered(rt, words, answer)
}

fn lookup(rt: &impl Print, words: &[u32], case: &str, address: u32) -> io::Result<()> {
    let answer = lookup::lookup(words, address);
    let address = Ipv4Addr::from(address);
    print!(rt; "{case} lookup {address}")?;
    answered(rt, words, answer)
}

// The answer, and the arrays that the list then needs.
fn answered(rt: &impl Print, words: &[u32], answer: Reply) -> io::Result<()> {
    match answer {
        Reply::Done(hop, cells) => print!(rt; " via {hop} cells {cells}")?,
        Reply::Found(hop, length, block) => print!(rt; " via {hop} length {length} block {block}")?,
        Reply::Nothing(block) => print!(rt; " none block {block}")?,
        Reply::Refused(n) => print!(rt; " refused {n}")?,
    }
    match audit::check(words) {
        Ok(Counts { arrays, .. }) => println!(rt; " arrays {arrays}"),
        Err(why) => {
            let n = why.number();
            println!(rt; " refused {n}")
        }
    }
}
