// The program through a front with room for the replies of 4,096 ticks, whose lines are more than a page takes: an IPv4 feed with
// ticks from standard input, on a cleared front, a cleared table of 3 arrays and with 20,480 reply bytes.
#![tactic(auto)]

use rows::FRONT_WORDS;
use std::io;

fn main(rt: HostRuntime) -> io::Result<()> {
    let mut front = [0u32; FRONT_WORDS];
    let mut words = [0u32; 12288];
    let mut reply = [0u8; 20480];
    let _ = damping::held::clear(&mut front);
    let _ = audit::clear(&mut words);
    console::through::show(&rt, rt.reader(), &mut front, &mut words, &mut reply)
}
