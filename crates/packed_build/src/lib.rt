// The words that a table needs compressed, and the build: refused with 1 or 2 for the table, then with 9 for too few words.
#![tactic(auto)]

ghost use Rattle.std.specs.Prelude.{◌≡◌, length, IfErr, IfOk};
ghost use Rattle.routes.specs.Seen.{gives, refuses};
ghost use Rattle.words.specs.Words.{arrays_of, array_count};
ghost use Rattle.words.specs.Table.{seen};
ghost use Rattle.words.specs.TableBut.{Table};
ghost use Rattle.refusals.specs.Number.{number};
ghost use Rattle.packed_build.specs.Laying.{Lays, Mapping};
ghost use Rattle.packed_arrays.specs.Laying.{LaidTo};
ghost use Rattle.packed_build.specs.Answer.{need_on, build_on, HasLaid, need_answer, build_answer};

use audit::table::is_table_of;
use packed::{ENTRY_WORDS, HEADER_WORDS};
use packed_arrays::fill::fill;
use packed_arrays::places::{MAP_WORDS, mask_in, place_in, places};
use refusals::Refusal;
use words::part::{page, tag};
use words::size::{arrays_in, misfit};

// The arrays of the table and the words needed.
#[derive(Clone, Copy, Debug, PartialEq, Eq)]
pub struct Counts {
    pub arrays: u32,
    pub words: usize,
}

// The arrays in use, one after the other.
fn lay(table: &[u32], map: &[u32; MAP_WORDS], words: &mut [u32])
    requires { Lays table.now map.now words.old }
    ensures { LaidTo (arrays_of table.now) words.old words.new
        (array_count table.now) }
{
    for a in 1..arrays_in(table) + 1 {
        if tag(table, a) != 0 {
            fill(
                page(table, a),
                map,
                words,
                place_in(map, Some(a)) as usize,
                mask_in(map, Some(a)),
            );
        }
    }
}

// The fault of words that are no table: before a map is made, so that a refusal takes no time for one.
#[tactic(auto, using(crate::specs::Laying::need_laws))]
fn tested(table: &[u32]) -> Result<(), Refusal>
    ensures fault { IfErr result (λ e. refuses (number e) ≡ need_on (seen 4 table.now)) }
    ensures table { IfOk result (λ _. Table 4 table.now) }
{
    if misfit(table.len()) {
        return Err(Refusal::Misfit);
    }
    if !is_table_of(table, 4) {
        return Err(Refusal::Foreign);
    }
    Ok(())
}

// The words that a table needs, and the map of its arrays.
#[tactic(auto, using(crate::specs::Laying::need_laws))]
fn mapped(table: &[u32], map: &mut [u32; MAP_WORDS]) -> usize
    requires { Table 4 table.now }
    ensures words { gives result ≡ need_on (seen 4 table.now) }
    ensures map { Mapping table.now map.new result }
{
    HEADER_WORDS + ENTRY_WORDS * places(table, map)
}

// The words that a table needs.
pub fn need(table: &[u32]) -> Result<usize, Refusal>
    ensures { need_answer result ≡ need_on (seen 4 table.now) }
{
    tested(table)?;
    let mut map = [0; MAP_WORDS];
    Ok(mapped(table, &mut map))
}

// A table compressed: any words that begin with those needed answer its lookups.
#[tactic(auto, using(crate::specs::Laying::build_answer_fact, crate::specs::Laying::build_laid))]
pub fn build(table: &[u32], words: &mut [u32]) -> Result<Counts, Refusal>
    ensures result_value { build_answer result ≡ build_on (seen 4 table.now) (length words.old) }
    ensures words { HasLaid table.now words.old words.new }
{
    tested(table)?;
    let mut map = [0; MAP_WORDS];
    let needed = mapped(table, &mut map);
    if words.len() < needed {
        return Err(Refusal::Short);
    }
    lay(table, &map, words);
    Ok(Counts {
        arrays: table[0],
        words: needed,
    })
}
