// The program: a feed from standard input, on a cleared table of 3 arrays and with 4,096 reply bytes.
#![tactic(auto)]

use families::Family;
use std::io;

fn main(rt: HostRuntime) -> io::Result<()> {
    let mut words = [0u32; 12288];
    let mut reply = [0u8; 4096];
    let _ = audit::clear(&mut words);
    console::show(&rt, rt.reader(), Family::V4, &mut words, &mut reply)
}
