// Writing a table's candidates out into a lent buffer: lower address first, at equal address shorter length first, at equal
// prefix lower feed first. A walk down the binary trie meets the prefixes in that order, array below array.
#![tactic(auto)]

ghost use Rattle.std.specs.Prelude.{◌≡◌, ◌+◌, ◌*◌, ◌<◌, ◌≤◌, length, get_or};
ghost use Rattle.routes.specs.Family.{v4, levels};
ghost use Rattle.candidates.specs.Seen.{count_on, front_on};
ghost use Rattle.slots.specs.Page.{words_at};
ghost use Rattle.words.specs.Table.{seen};
ghost use Rattle.families.specs.Said.{said_family};
ghost use Rattle.refusals.specs.Number.{said};
ghost use Rattle.writing.specs.Answer.{bytes_put, HasFilled};
ghost use Rattle.numbers.specs.Wrote.{Wrote};
ghost use Rattle.writing.specs.Asked.{family_of, bytes_word, bytes_own, bytes_below, bytes_all, Puts, PutsSlot};
ghost use Rattle.writing.specs.Asked.{Sides, Branches, Splits, Keeps, list_bytes, Starts, Dumps};
ghost use Rattle.writing.specs.Prefix.{stand_at};
ghost use Rattle.address.specs.Parts.{filled};

use families::Family;
use refusals::Refusal;
use sizes::{ROOT_SLOT, SLOT_WORDS};
use slots::slot::{is_free, word_at};
use slots::word::{hop_in, preference_in};
use words::part::half;
use words::total::total_in;

// The bytes of an address of IPv4, and of IPv6.
const V4_BYTES: usize = 4;

const V6_BYTES: usize = 16;

// Some bytes at `at`; returns the place after them.
pub fn put_all<const N: usize>(bytes: &[u8; N], buffer: &mut [u8], at: usize) -> usize
    requires { at + N ≤ length buffer.old }
    ensures { Wrote buffer.old at bytes.now result buffer.new }
{
    buffer[at..at + N].copy_from_slice(bytes);
    at + N
}

// The bytes of a prefix's address at `at`, which reaches into some of them: 0 behind these. Returns the place after them. The
// address comes by value, and each byte is read whether it is used or not, so that no test needs a jump.
fn put_bytes<const L: usize>(address: [u8; L], reach: usize, buffer: &mut [u8], at: usize) -> usize
    requires { (reach ≤ L) × (at + L ≤ length buffer.old) }
    ensures { Wrote buffer.old at (filled reach address.entry) result buffer.new }
{
    for (i, &own) in address.iter().enumerate() {
        let byte = if i < reach { own } else { 0 };
        buffer[at + i] = byte;
    }
    at + L
}

// The same of either family's.
fn put_address(address: &[u8], reach: usize, buffer: &mut [u8], at: usize) -> usize
    requires family { levels (family_of address.now) ≡ length address.now }
    requires room { (reach ≤ length address.now) × (at + length address.now ≤ length buffer.old) }
    ensures { Wrote buffer.old at (filled reach address.now) result buffer.new }
{
    if address.len() == V6_BYTES {
        return put_bytes::<V6_BYTES>(address::sixteen_of(address), reach, buffer, at);
    }
    put_bytes::<V4_BYTES>(address.try_into().unwrap(), reach, buffer, at)
}

// The record of a prefix at `at` with a feed's candidate, unless its word is 0; returns the place after it. The prefix is the
// address without some bits at its end.
fn put(word: u32, feed: usize, address: &[u8], bits: usize, buffer: &mut [u8], at: usize) -> usize
    requires { Puts feed word address.now bits buffer.old at }
    ensures { Wrote buffer.old at (bytes_word bits address.now feed word) result buffer.new }
{
    if word == 0 {
        return at;
    }
    let length = 8 * address.len() - bits;
    let start = put_all(&[families::list_kind(address.len())], buffer, at);
    let end = put_address(address, address.len() - bits / 8, buffer, start);
    let [.., high, low] = hop_in(word).to_be_bytes();
    let preference = (preference_in(word) % 256) as u8;
    let tail = [
        (length % 256) as u8,
        high,
        low,
        (feed % 256) as u8,
        preference,
    ];
    put_all(&tail, buffer, end)
}

// The records of a prefix with the candidates in `slot`, lower feed first.
fn put_feeds(
    words: &[u32],
    slot: usize,
    address: &[u8],
    bits: usize,
    buffer: &mut [u8],
    at: usize,
) -> usize
    requires { PutsSlot words.now slot address.now bits buffer.old at }
    ensures { Wrote buffer.old at
        (bytes_own bits address.now (words_at words.now slot)) result buffer.new }
{
    let mut p = at;
    for feed in 1..SLOT_WORDS + 1 {
        p = put(word_at(words, slot, feed), feed, address, bits, buffer, p);
    }
    p
}

// The same, with a test before it: most slots are free.
fn put_slot(
    words: &[u32],
    slot: usize,
    address: &[u8],
    bits: usize,
    buffer: &mut [u8],
    at: usize,
) -> usize
    requires { PutsSlot words.now slot address.now bits buffer.old at }
    ensures { Wrote buffer.old at
        (bytes_own bits address.now (words_at words.now slot)) result buffer.new }
{
    if is_free(words, slot) {
        return at;
    }
    put_feeds(words, slot, address, bits, buffer, at)
}

// Makes the address that of the prefix in `slot`, of which the whole bytes are there. The slot's number in its array is a 1 and
// then the prefix's bits there: moved to the front of a byte they are the prefix's last, and the 1 falls out. So do the arrays
// before it: the words of one are those of 3 * 256 slots.
pub fn stand_at(address: &mut [u8], slot: usize, bits: usize)
    requires { bits < 8 * length address.old }
    ensures { address.new ≡ stand_at address.old slot bits }
{
    let k = address.len() - 1 - bits / 8;
    address[k] = (((slot / SLOT_WORDS) << (bits % 8)) % 256) as u8;
}

// The records of the prefix in `slot`, which has some bits below it in the address, and of all below it. Returns the place after
// them. The address is lent to be changed: of the bytes that the prefix reaches into all but the last are there, and stay. Where
// the slot's total is 0 there are no records, and nothing else is read.
// kept: the place and the output are no structs, since every clause would grow: `out.old.buffer.now` for `buffer.old`.
// kept: a slice and no `[u8; L]`, since no proof closes of functions that call each other over a const parameter.
#[cycle(branch_halves_side_some)]
fn side(
    words: &[u32],
    slot: usize,
    address: &mut [u8],
    bits: usize,
    buffer: &mut [u8],
    at: usize,
) -> usize
    requires { Sides words.now slot address.old bits buffer.old at }
    ensures kept { Keeps address.old (bits + 1) address.new }
    ensures wrote { Wrote buffer.old at
        (bytes_all words.now bits (stand_at address.old slot bits)) result buffer.new }
{
    if total_in(words, slot) == 0 {
        return at;
    }
    some(words, slot, address, bits, buffer, at)
}

// The same without the test: the prefix's own records, and what is below it. Apart from `side`, so that the compiler tests a
// total before it calls: most are 0. kept: speed.
#[cycle(branch_halves_side_some)]
fn some(
    words: &[u32],
    slot: usize,
    address: &mut [u8],
    bits: usize,
    buffer: &mut [u8],
    at: usize,
) -> usize
    requires { Sides words.now slot address.old bits buffer.old at }
    ensures kept { Keeps address.old (bits + 1) address.new }
    ensures wrote { Wrote buffer.old at
        (bytes_all words.now bits (stand_at address.old slot bits)) result buffer.new }
{
    stand_at(address, slot, bits);
    let p = put_slot(words, slot, address, bits, buffer, at);
    branch(words, slot, address, bits, buffer, p)
}

// The records of all below that prefix alone, whose address is lent: it is left as another prefix's, with the same whole bytes.
#[cycle(branch_halves_side_some)]
fn branch(
    words: &[u32],
    slot: usize,
    address: &mut [u8],
    bits: usize,
    buffer: &mut [u8],
    at: usize,
) -> usize
    requires { Branches words.now slot address.old bits buffer.old at }
    ensures kept { Keeps address.old bits address.new }
    ensures wrote { Wrote buffer.old at (bytes_below words.now bits address.old)
        result buffer.new }
{
    if bits == 0 {
        return at;
    }
    let Some(low) = half(words, slot) else {
        return at;
    };
    halves(words, low, address, bits, buffer, at)
}

// The same where its lower half stands in the slot `low`: that half's records, then the upper half's.
// kept: speed. Apart from `branch`, which tests for a half before the call: as one function writing out takes a fifth longer.
#[cycle(branch_halves_side_some)]
fn halves(
    words: &[u32],
    low: usize,
    address: &mut [u8],
    bits: usize,
    buffer: &mut [u8],
    at: usize,
) -> usize
    requires { Splits words.now low address.old bits buffer.old at }
    ensures kept { Keeps address.old bits address.new }
    ensures wrote { Wrote buffer.old at (bytes_below words.now bits address.old)
        result buffer.new }
{
    let high = low + SLOT_WORDS;
    let rest = bits - 1;
    let p = side(words, low, address, rest, buffer, at);
    side(words, high, address, rest, buffer, p)
}

// The whole list of a table: the root's length 0, what is below it, and the end. The address lent is that of the root.
fn dump_from(words: &[u32], address: &mut [u8], buffer: &mut [u8]) -> usize
    requires starts { Starts address.old }
    requires dumps { Dumps (family_of address.old) words.now buffer.old }
    ensures { Wrote buffer.old 0 (list_bytes (family_of address.old) words.now)
        result buffer.new }
{
    let bits = 8 * address.len();
    let p = put_slot(words, ROOT_SLOT, address, bits, buffer, 0);
    let low = ROOT_SLOT + SLOT_WORDS;
    let end = halves(words, low, address, bits, buffer, p);
    put_all(&[0], buffer, end)
}

// The same for a family.
fn dump(words: &[u32], family: Family, buffer: &mut [u8]) -> usize
    requires { Dumps (said_family family) words.now buffer.old }
    ensures { Wrote buffer.old 0 (list_bytes (said_family family) words.now)
        result buffer.new }
{
    let mut address = [0u8; V6_BYTES];
    dump_from(words, &mut address[..families::levels(family)], buffer)
}

// How many bytes writing a family's list out puts into a buffer of `room` bytes.
pub fn count_of(words: &[u32], family: Family, room: usize) -> Result<usize, Refusal>
    ensures { said result ≡ count_on (said_family family) (seen (levels (said_family family)) words.now) room }
{
    let levels = families::levels(family);
    let counts = audit::check_of(words, levels as u32)?;
    let bytes = (levels + 6) * counts.routes as usize + 1;
    if room < bytes {
        return Err(Refusal::Short);
    }
    Ok(bytes)
}

// Of an IPv4 list.
// kept: `count`, `fill` and `write_out` are named by the documents, and fix one argument: no twins.
pub fn count(words: &[u32], room: usize) -> Result<usize, Refusal>
    ensures { said result ≡ count_on v4 (seen 4 words.now) room }
{
    count_of(words, Family::V4, room)
}

// Writes a family's list out at the front of the buffer, whose other bytes stay; returns how many bytes. Where the count refuses,
// all of them stay.
pub fn fill_of(words: &[u32], family: Family, buffer: &mut [u8]) -> Result<usize, Refusal>
    ensures answer { said result ≡ count_on (said_family family) (seen (levels (said_family family)) words.now)
        (length buffer.old) }
    ensures filled { HasFilled (said_family family) (seen (levels (said_family family)) words.now)
        buffer.old (bytes_put result) buffer.new }
{
    count_of(words, family, buffer.len())?;
    Ok(dump(words, family, buffer))
}

// An IPv4 list.
pub fn fill(words: &[u32], buffer: &mut [u8]) -> Result<usize, Refusal>
    ensures answer { said result ≡ count_on v4 (seen 4 words.now) (length buffer.old) }
    ensures filled { HasFilled v4 (seen 4 words.now) buffer.old (bytes_put result) buffer.new }
{
    fill_of(words, Family::V4, buffer)
}

// The front of the buffer, written: the bytes of a family's list, or none where the count refuses.
pub fn write_out_of<'a>(words: &[u32], family: Family, buffer: &'a mut [u8]) -> &'a mut [u8]
    ensures place { result.ref_ptr ≡ buffer.entry.ref_ptr }
    ensures bytes { result.now ≡ front_on (said_family family) (seen (levels (said_family family)) words.now)
        (length buffer.old) }
{
    let n = fill_of(words, family, &mut buffer[..]).unwrap_or(0);
    &mut buffer[..n]
}

// Of an IPv4 list.
pub fn write_out<'a>(words: &[u32], buffer: &'a mut [u8]) -> &'a mut [u8]
    ensures place { result.ref_ptr ≡ buffer.entry.ref_ptr }
    ensures bytes { result.now ≡ front_on v4 (seen 4 words.now) (length buffer.old) }
{
    write_out_of(words, Family::V4, buffer)
}
