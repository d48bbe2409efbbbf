// The program for IPv6: a feed from standard input, on a cleared table of 17 arrays and with 4,096 reply bytes. A route of length
// 128 needs 16 arrays.
#![tactic(auto)]

use families::Family;
use std::io;

fn main(rt: HostRuntime) -> io::Result<()> {
    let mut words = [0u32; 55296];
    let mut reply = [0u8; 4096];
    let _ = audit::clear_any(&mut words);
    console::show(&rt, rt.reader(), Family::V6, &mut words, &mut reply)
}
