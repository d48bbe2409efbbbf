// The programs on stored feeds, each with words and reply bytes of its own. A case is a row of `main` and a file of its name in
// `data/`: its family, its words, its reply bytes, and whether the words are cleared first. What it prints stands under its name.
#![tactic(auto)]

ghost use Rattle.std.specs.Prelude.{◌≤◌};

use families::Family;
use rows::FRONT_WORDS;
use std::fs::File;
use std::io;
use std::rt::Files;

fn main(rt: HostRuntime) -> io::Result<()> {
    four(&rt)?;
    six(&rt)?;
    kinds(&rt)?;
    through(&rt)
}

// IPv4.
fn four<R: Files + Print>(rt: &R) -> io::Result<()> {
    // Refused records: 3, 4, 5, 10, 7 and 8, and which comes first where several apply. A byte that is no kind stops the run
    // with 2.
    run(rt, "refusals", Program::V4, 24576, 4096, true)?;
    // Lookups: at every level, at the edges of a box, and after the box around was withdrawn. A record cut short stops it with 3.
    run(rt, "lookups", Program::V4, 24576, 4096, true)?;
    // All 7 arrays are used, records are refused for room, arrays are freed and taken again. The feed's end stops it with 1.
    run(rt, "room", Program::V4, 24576, 4096, true)?;
    // Second announcements: with another hop and with the same one, of routes that longer ones cover in part and wholly, and
    // where every array is used; a lookup after each.
    run(rt, "replaces", Program::V4, 24576, 4096, true)?;
    // No input stops it with 1.
    run(rt, "empty", Program::V4, 12288, 4096, true)?;
    // 4,096 bytes, the longest feed that is taken: records of all kinds and feeds at random. Then one byte more.
    run(rt, "full", Program::V4, 12288, 4096, true)?;
    run(rt, "long", Program::V4, 12288, 4096, true)?;
    // 4 arrays: room freed by a withdrawal is usable at once. Bytes after the end are not read.
    run(rt, "four_arrays", Program::V4, 15360, 4096, true)?;
    // Replies of 5, 5 and 2 bytes leave 4 of 16: the next record stops it with 4, an end wants no reply and stops it with 0.
    run(rt, "short_reply", Program::V4, 12288, 16, true)?;
    run(rt, "short_reply_end", Program::V4, 12288, 16, true)?;
    // Blocks: of no route and the default route, of boxes in boxes, down to the last bits. After two replies of 2 bytes 4 of 8
    // are free: a lookup stops it with 4, though 2 would do.
    run(rt, "blocks_none", Program::V4, 12288, 4096, true)?;
    run(rt, "blocks_nested", Program::V4, 12288, 4096, true)?;
    run(rt, "blocks_last_bits", Program::V4, 15360, 4096, true)?;
    run(rt, "blocks_short_reply", Program::V4, 12288, 8, true)?;
    // Candidates: the better preference wins, and goes; at equal preference the lowest feed, and with an equal hop no cells;
    // kinds 1 and 2 are those of feed 1; 2 arrays, where a prefix has its room while it has a candidate; kinds 1 and 4 mixed.
    run(rt, "candidates_better", Program::V4, 12288, 4096, true)?;
    run(rt, "candidates_equal", Program::V4, 12288, 4096, true)?;
    run(rt, "candidates_first_feed", Program::V4, 12288, 4096, true)?;
    run(rt, "candidates_room", Program::V4, 9216, 4096, true)?;
    run(rt, "candidates_kinds", Program::V4, 12288, 4096, true)?;
    // A number of words that no table has is refused with 1, words that are no table with 2.
    run(rt, "misfit_words", Program::V4, 12287, 4096, true)?;
    run(rt, "foreign_words", Program::V4, 6144, 4096, false)
}

// IPv6.
fn six<R: Files + Print>(rt: &R) -> io::Result<()> {
    // The default route and none. A route of length 128, which 16 arrays hold and 15 do not. Candidates of one prefix.
    run(rt, "default_route", Program::V6, 6144, 4096, true)?;
    run(rt, "sixteen_arrays", Program::V6, 52224, 4096, true)?;
    run(rt, "fifteen_arrays", Program::V6, 49152, 4096, true)?;
    run(rt, "candidates", Program::V6, 12288, 4096, true)?;
    // Refused records, and which refusal comes first where several apply. A record cut short stops it with 3.
    run(rt, "refusals_v6", Program::V6, 52224, 4096, true)?;
    // Addresses as RFC 5952 has them: zero groups at the start, inside and at the end, one alone, and two stretches of them.
    run(rt, "texts", Program::V6, 6144, 4096, true)?;
    // Words that are no table are refused with 2.
    run(rt, "foreign_words", Program::V6, 6144, 4096, false)
}

// Both families: no input, an end, and the first byte of a record alone. A kind of the other family or of none stops the run with
// 2, one of its own with 3.
fn kinds<R: Files + Print>(rt: &R) -> io::Result<()> {
    run(rt, "empty", Program::V6, 6144, 4096, true)?;
    run(rt, "kind_0", Program::V4, 6144, 4096, true)?;
    run(rt, "kind_0", Program::V6, 6144, 4096, true)?;
    run(rt, "kind_6", Program::V4, 6144, 4096, true)?;
    run(rt, "kind_7", Program::V4, 6144, 4096, true)?;
    run(rt, "kind_8", Program::V4, 6144, 4096, true)?;
    run(rt, "kind_1", Program::V6, 6144, 4096, true)?;
    run(rt, "kind_2", Program::V6, 6144, 4096, true)?;
    run(rt, "kind_3", Program::V6, 6144, 4096, true)?;
    run(rt, "kind_4", Program::V6, 6144, 4096, true)?;
    run(rt, "kind_5", Program::V6, 6144, 4096, true)?;
    run(rt, "kind_9", Program::V4, 6144, 4096, true)?;
    run(rt, "kind_9", Program::V6, 6144, 4096, true)?;
    run(rt, "kind_6", Program::V6, 6144, 4096, true)?;
    run(rt, "kind_4", Program::V4, 6144, 4096, true)
}

// IPv4 through a front.
fn through<R: Files + Print>(rt: &R) -> io::Result<()> {
    // Four flaps hold back and three ticks let go; what is kept is withdrawn; no room at its tick; candidates of one prefix are
    // apart, and faults come first; held back again before it is let go; 750 is not below 750.
    run(rt, "flaps_let_go", Program::Through, 12288, 4096, true)?;
    run(rt, "flaps_withdrawn", Program::Through, 12288, 4096, true)?;
    run(rt, "flaps_no_room", Program::Through, 9216, 4096, true)?;
    run(rt, "flaps_apart", Program::Through, 12288, 4096, true)?;
    run(rt, "flaps_again", Program::Through, 12288, 4096, true)?;
    run(rt, "flaps_border", Program::Through, 12288, 4096, true)?;
    // A tick is a whole record, and wants five reply bytes. The other tests before a record are as without a front.
    run(rt, "kind_9", Program::Through, 6144, 5, true)?;
    run(rt, "kind_9", Program::Through, 6144, 4, true)?;
    run(rt, "kind_0", Program::Through, 6144, 4096, true)?;
    run(rt, "kind_4", Program::Through, 6144, 4096, true)?;
    run(rt, "kind_6", Program::Through, 6144, 4096, true)?;
    run(rt, "empty", Program::Through, 6144, 4096, true)?;
    run(rt, "long", Program::Through, 12288, 4096, true)?;
    run(rt, "misfit_words", Program::Through, 12287, 4096, true)?;
    run(rt, "foreign_words", Program::Through, 6144, 4096, false)
}

// Which of the programs a case is for.
#[derive(Clone, Copy)]
enum Program {
    V4,
    V6,
    // IPv4 through a front, which is cleared
    Through,
}

// Words that are not cleared are all 7, and no table.
fn run<R: Files + Print>(
    rt: &R,
    name: &str,
    program: Program,
    words: usize,
    reply: usize,
    cleared: bool,
) -> io::Result<()>
    requires words_bound { words ≤ 52224 }
    requires reply_bound { reply ≤ 4096 }
{
    let after = match program {
        Program::V4 => "",
        Program::V6 => ", IPv6",
        Program::Through => ", through a front",
    };
    println!(rt; "# {name}{after}")?;
    let file = File::open(rt, name)?;
    let mut space = [7u32; 52224];
    let mut replies = [0u8; 4096];
    let lent = &mut space[..words];
    let reply = &mut replies[..reply];
    if cleared {
        let _ = audit::clear_any(lent);
    }
    match program {
        Program::V4 => console::show(rt, file, Family::V4, lent, reply),
        Program::V6 => console::show(rt, file, Family::V6, lent, reply),
        Program::Through => {
            let mut front = [7u32; FRONT_WORDS];
            let _ = damping::held::clear(&mut front);
            console::through::show(rt, file, &mut front, lent, reply)
        }
    }
}
