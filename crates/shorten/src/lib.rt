// The shortest list that forwards as an IPv4 table does, written into a lent buffer as kind 1 records. A lent scratch of at least
// as many words as the table's keeps the sets of hops from one pass over the table to the next.
#![tactic(auto)]

ghost use Rattle.std.specs.Prelude.{◌≡◌, ltb, length};
ghost use Rattle.words.specs.Table.{seen};
ghost use Rattle.refusals.specs.Number.{fault};
ghost use Rattle.shorten.specs.Answer.{unfit_on, short_in, scratch_in, front_in, HasCounted, HasShortened};

use refusals::Refusal;
use sizes::ROOT_SLOT;
use sweep::down::put_routes;
use sweep::small::small_hops;
use sweep::up::keep_sets;

// The bits of an address: so many are below the prefix of length 0.
const ADDRESS_BITS: usize = 32;

// The refusals that come before the buffer's.
fn refusal(words: &[u32], scratch: usize) -> Result<(), Refusal>
    ensures { fault result ≡ unfit_on (seen 4 words.now) (ltb scratch (length words.now)) }
{
    if scratch < words.len() {
        return Err(Refusal::Misfit);
    }
    audit::check(words)?;
    if slots::slot::hop_at(words, ROOT_SLOT) == 0 {
        return Err(Refusal::NoDefault);
    }
    if !small_hops(words, ROOT_SLOT, ADDRESS_BITS) {
        return Err(Refusal::HighHop);
    }
    Ok(())
}

// How many bytes the shortest list is, in a buffer of `room` bytes. The scratch is left with the sets where the list is known, so
// also where only the room is missing.
pub fn count(words: &[u32], scratch: &mut [u32], room: usize) -> Result<usize, Refusal>
    ensures { HasCounted words.now scratch.old room result scratch.new }
{
    refusal(words, scratch.len())?;
    let whole = keep_sets(words, ROOT_SLOT, ADDRESS_BITS, 0, scratch);
    // A record has 8 bytes. There is one more than the cost, as no hop comes to length 0 from above; then the end.
    let bytes = 8 * whole.cost + 9;
    if room < bytes {
        return Err(Refusal::Short);
    }
    Ok(bytes)
}

// Writes the shortest list at the front of the buffer, whose other bytes stay; on a refusal all of them do.
pub fn shorten(words: &[u32], scratch: &mut [u32], buffer: &mut [u8]) -> Result<usize, Refusal>
    ensures { HasShortened words.now scratch.old buffer.old
        result scratch.new buffer.new }
{
    let bytes = count(words, scratch, buffer.len())?;
    let end = put_routes(words, scratch, ROOT_SLOT, 0, ADDRESS_BITS, 0, buffer, 0);
    buffer[end] = 0;
    Ok(bytes)
}

// The front of the buffer, written: the bytes of the shortest list, or none on a refusal.
pub fn write_shortest<'a>(words: &[u32], scratch: &mut [u32], buffer: &'a mut [u8]) -> &'a mut [u8]
    ensures place { result.ref_ptr ≡ buffer.entry.ref_ptr }
    ensures bytes { result.now ≡ front_in
        (short_in words.now scratch.old (length buffer.old)) }
    ensures sets { scratch.new ≡ scratch_in
        (short_in words.now scratch.old (length buffer.old))
        words.now scratch.old }
{
    let n = shorten(words, scratch, &mut buffer[..]).unwrap_or(0);
    &mut buffer[..n]
}
