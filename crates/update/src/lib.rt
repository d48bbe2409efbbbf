// Announcements and withdrawals: a feed's candidate put into a table of lent words, or taken out of it. An address is its bytes,
// as many as the table has levels.
#![tactic(auto)]

ghost use Rattle.std.specs.Prelude.{◌≡◌, true, ◌*◌, ◌<◌, ◌≤◌, length as size};
ghost use Rattle.routes.specs.Seen.{misfits};
ghost use Rattle.sizes.specs.Sizes.{most_words, level_bound};
ghost use Rattle.candidates.specs.Answers.{announce as announced, withdraw as withdrawn};
ghost use Rattle.slots.specs.Word.{IsFeed};
ghost use Rattle.words.specs.TableBut.{Table};
ghost use Rattle.address.specs.Address.{IsAddress};
ghost use Rattle.numbers.specs.Number.{number};
ghost use Rattle.refusals.specs.Number.{fault};
ghost use Rattle.update.specs.Fault.{fault_of, feed_fault};
ghost use Rattle.update.specs.Locally.{fault_at, HasUpdatedLocally};
ghost use Rattle.update.specs.Local.{SpotIn, SeatedAny, SitsAny, ReseatedAny};
ghost use Rattle.update.specs.Update.{HasUpdated, refusal_of, reply_of};

use address::Address;
use array::change::Changed;
use refusals::Refusal;
use replies::Reply;
use slots::word::{hop_in, word_of};
use std::convert::AsSlice;

// The fault of a number of words, if it has one.
fn size_fault(words: &[u32]) -> Result<(), Refusal>
    ensures { fault result ≡ fault_at (misfits (size words.now)) }
{
    if words::size::misfit(words.len()) {
        return Err(Refusal::Misfit);
    }
    Ok(())
}

// The fault of a feed's number, if it has one.
fn feed_fault(feed: u32) -> Result<(), Refusal>
    ensures { fault result ≡ feed_fault feed }
{
    match feed {
        1..=4 => Ok(()),
        _ => Err(Refusal::Feed),
    }
}

// The first fault of an announcement, if it has one; no preference is a fault.
pub fn announce_fault(address: &[u8], length: u32, hop: u32, feed: u32) -> Result<(), Refusal>
    requires { size address.now < level_bound }
    ensures { fault result ≡ fault_of (8 * size address.now)
        (announced (number address.now) length hop feed 0) }
{
    address::prefix_fault(address, length)?;
    if hop == 0 || hop > 65535 {
        return Err(Refusal::Hop);
    }
    feed_fault(feed)
}

// The same of a withdrawal.
pub fn withdraw_fault(address: &[u8], length: u32, feed: u32) -> Result<(), Refusal>
    requires { size address.now < level_bound }
    ensures { fault result ≡ fault_of (8 * size address.now) (withdrawn (number address.now) length feed) }
{
    address::prefix_fault(address, length)?;
    feed_fault(feed)
}

// A feed's word in the slot at a place of array a set, to 0 for none. The page of that array alone is lent.
// kept: 0 and no option, as it is the word that stands in the lent words then (definition word_for).
fn reslot(words: &mut [u32], a: usize, p: address::Place, feed: usize, word: u32) -> Changed
    requires { SpotIn words.old a p.depth p.value × IsFeed feed }
    ensures { SeatedAny words.old words.new a p.depth p.value feed word result }
{
    let from = words::part::array_at(a);
    let to = words::part::array_at(a + 1);
    settle::slot::reslot(&mut words[from..to], p.depth, p.value, feed, word)
}

// The same, and the totals on the path of the array; the cells rewritten are counted.
fn reseat(words: &mut [u32], a: usize, p: address::Place, feed: usize, word: u32) -> u32
    requires { SitsAny words.old a p.depth p.value × (size words.old ≤ most_words) × IsFeed feed }
    ensures { ReseatedAny words.old words.new a p.depth p.value feed word result }
{
    let changed = reslot(words, a, p, feed, word);
    let slot = array::place::slot_of(p.depth, p.value);
    words::total::retotal(words, a, slot, changed.before, changed.after);
    changed.cells
}

// What an update that is done tells: the hop, and the cells that a card has to reload.
#[derive(Clone, Copy, Debug, PartialEq, Eq)]
struct Done {
    hop: u32,
    cells: u32,
}

fn reply(tried: Result<Done, Refusal>) -> Reply
    ensures { result ≡ reply_of tried }
{
    match tried {
        Ok(done) => Reply::Done(done.hop, done.cells),
        Err(e) => Reply::Refused(e.number()),
    }
}

// A candidate announced. One that is held already changes no word; another replaces the feed's, in the array that is there. A
// caller who knows the words to be a table spares the tests of what is touched.
fn announce_in(
    words: &mut [u32],
    address: &[u8],
    length: u32,
    hop: u32,
    feed: u32,
    preference: u8,
    known: bool,
) -> Result<Done, Refusal>
    requires { IsAddress address.now × ((known ≡ true) → Table (size address.now) words.old) }
    ensures { HasUpdatedLocally (size address.now) words.old words.new
        (announced (number address.now) length hop feed preference) (reply_of result) }
{
    size_fault(words)?;
    announce_fault(address, length, hop, feed)?;
    let word = word_of(preference as u32, hop);
    let found = paths::find(words, address, length, feed as usize, known)?;
    if found.word == word {
        return Ok(Done { hop, cells: 0 });
    }
    let place = found.place;
    let a = paths::extend(words, address, found.stop, place.level, known)?;
    let cells = reseat(words, a, place, feed as usize, word);
    Ok(Done { hop, cells })
}

// A candidate withdrawn.
fn withdraw_in(
    words: &mut [u32],
    address: &[u8],
    length: u32,
    feed: u32,
    known: bool,
) -> Result<Done, Refusal>
    requires { IsAddress address.now × ((known ≡ true) → Table (size address.now) words.old) }
    ensures { HasUpdatedLocally (size address.now) words.old words.new
        (withdrawn (number address.now) length feed) (reply_of result) }
{
    size_fault(words)?;
    withdraw_fault(address, length, feed)?;
    let found = paths::find(words, address, length, feed as usize, known)?;
    if found.word == 0 {
        return Err(Refusal::Absent);
    }
    let a = found.stop.array;
    let cells = reseat(words, a, found.place, feed as usize, 0);
    paths::prune(words, a);
    Ok(Done {
        hop: hop_in(found.word),
        cells,
    })
}

// ---- updates of any words

// The first of 1, an update's own fault and 2 that applies: with none, the words are a table of so many levels.
pub fn refusal(words: &[u32], levels: u32, own: Result<(), Refusal>) -> Result<(), Refusal>
    ensures { fault result ≡ refusal_of levels words.now (fault own) }
{
    size_fault(words)?;
    own?;
    if !audit::table::is_table_of(words, levels) {
        return Err(Refusal::Foreign);
    }
    Ok(())
}

// The same in numbers, where the own fault may have any: 0 stands for none.
pub fn refusal_number(words: &[u32], levels: u32, own: u32) -> u32
    ensures { result ≡ refusal_of levels words.now own }
{
    if words::size::misfit(words.len()) {
        return Refusal::Misfit.number();
    }
    if own != 0 {
        return own;
    }
    if audit::table::is_table_of(words, levels) {
        return 0;
    }
    Refusal::Foreign.number()
}

// A candidate announced: refused with the first of 1, 3, 4, 5, 10, 2 and 8 that applies, or held afterwards.
// kept: length, hop, feed and preference one by one, as C lends them: a struct of them is made at each call to be taken apart.
pub fn announce_of(
    words: &mut [u32],
    address: &[u8],
    length: u32,
    hop: u32,
    feed: u32,
    preference: u8,
) -> Reply
    requires { IsAddress address.now }
    ensures { HasUpdated (size address.now) words.old words.new
        (announced (number address.now) length hop feed preference) result }
{
    let own = announce_fault(address, length, hop, feed);
    match refusal(words, address.len() as u32, own) {
        Ok(()) => announce_with(words, address, length, hop, feed, preference, true),
        Err(e) => Reply::Refused(e.number()),
    }
}

// The same of an address of either family.
pub fn announce<A: Address>(
    words: &mut [u32],
    address: A,
    length: u32,
    hop: u32,
    feed: u32,
    preference: u8,
) -> Reply
    ensures { HasUpdated A.levels words.old words.new
        (announced (A.value address) length hop feed preference) result }
{
    let bytes = address.bytes();
    announce_of(words, bytes.as_slice(), length, hop, feed, preference)
}

// A candidate withdrawn: refused with the first of 1, 3, 4, 10, 2 and 7 that applies, or held no more.
pub fn withdraw_of(words: &mut [u32], address: &[u8], length: u32, feed: u32) -> Reply
    requires { IsAddress address.now }
    ensures { HasUpdated (size address.now) words.old words.new
        (withdrawn (number address.now) length feed) result }
{
    let own = withdraw_fault(address, length, feed);
    match refusal(words, address.len() as u32, own) {
        Ok(()) => withdraw_with(words, address, length, feed, true),
        Err(e) => Reply::Refused(e.number()),
    }
}

// The same of an address of either family.
pub fn withdraw<A: Address>(words: &mut [u32], address: A, length: u32, feed: u32) -> Reply
    ensures { HasUpdated A.levels words.old words.new (withdrawn (A.value address) length feed) result }
{
    let bytes = address.bytes();
    withdraw_of(words, bytes.as_slice(), length, feed)
}

// ---- updates of any words that test what they touch, and no more

// A candidate announced: refused with the first of 1, 3, 4, 5, 10, 2 (what it touches is not as in a table) and 8 that applies,
// or held afterwards. A caller who knows the words to be a table spares the tests.
pub fn announce_with(
    words: &mut [u32],
    address: &[u8],
    length: u32,
    hop: u32,
    feed: u32,
    preference: u8,
    known: bool,
) -> Reply
    requires { IsAddress address.now × ((known ≡ true) → Table (size address.now) words.old) }
    ensures { HasUpdatedLocally (size address.now) words.old words.new
        (announced (number address.now) length hop feed preference) result }
{
    reply(announce_in(words, address, length, hop, feed, preference, known))
}

// A candidate withdrawn: refused with the first of 1, 3, 4, 10, 2 and 7 that applies, or held no more.
pub fn withdraw_with(
    words: &mut [u32],
    address: &[u8],
    length: u32,
    feed: u32,
    known: bool,
) -> Reply
    requires { IsAddress address.now × ((known ≡ true) → Table (size address.now) words.old) }
    ensures { HasUpdatedLocally (size address.now) words.old words.new
        (withdrawn (number address.now) length feed) result }
{
    reply(withdraw_in(words, address, length, feed, known))
}

// A candidate announced, by a caller who knows nothing of the words.
pub fn announce_local<A: Address>(
    words: &mut [u32],
    address: A,
    length: u32,
    hop: u32,
    feed: u32,
    preference: u8,
) -> Reply
    ensures { HasUpdatedLocally A.levels words.old words.new
        (announced (A.value address) length hop feed preference) result }
{
    let bytes = address.bytes();
    announce_with(
        words,
        bytes.as_slice(),
        length,
        hop,
        feed,
        preference,
        false,
    )
}

// A candidate withdrawn, by a caller who knows nothing of the words.
pub fn withdraw_local<A: Address>(words: &mut [u32], address: A, length: u32, feed: u32) -> Reply
    ensures { HasUpdatedLocally A.levels words.old words.new
        (withdrawn (A.value address) length feed) result }
{
    let bytes = address.bytes();
    withdraw_with(words, bytes.as_slice(), length, feed, false)
}
