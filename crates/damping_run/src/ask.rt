// A record or a tick of a feed, answered by a front and the words behind it; a caller who knows these to be a table spares their
// tests. A record that names no feed is of feed 1, with preference 0.
ghost use Rattle.std.specs.Prelude.{◌≡◌, ◌<◌, length, get_or};
ghost use Rattle.logic.specs.Nonzero.{nonzero};
ghost use Rattle.routes.specs.Family.{v4};
ghost use Rattle.families.specs.Said.{said_role};
ghost use Rattle.replies.specs.Said.{said_reply};
ghost use Rattle.feed.specs.Turns.{announce_at, withdraw_at, here};
ghost use Rattle.front.specs.Front.{asks};
ghost use Rattle.front.specs.Runs.{event_at};
ghost use Rattle.damping_run.specs.Locally.{AskedLocally};
ghost use Rattle.damping_run.specs.Turns.{bytes_of, Whole, Asks, Answers};

use families::{Family, Role};
use replies::Reply;

// The kind of a tick; the bytes of an address.
// kept: a number, as the byte of a feed that the definition `tick_kind` names
pub const TICK: u8 = 9;

pub const ADDRESS_BYTES: usize = 4;

// The bytes of the record or tick that begins at `at`, the kind's own included: none for a kind that is none of theirs.
pub(crate) fn size_at(feed: &[u8], at: usize) -> Option<usize>
    ensures { at < length feed.now → result ≡ nonzero (bytes_of (get_or feed.now at 0)) }
{
    let kind = *feed.get(at)?;
    if kind == TICK {
        return Some(1);
    }
    let role = families::role_of(Family::V4, kind)?;
    Some(feed::size(Family::V4, role))
}

// Answers what begins at `at`.
pub(crate) fn answer(
    front: &mut [u32],
    words: &mut [u32],
    feed: &[u8],
    at: usize,
    known: bool,
) -> Reply
    requires { Answers front.old words.old feed.now at known }
    ensures { AskedLocally front.old words.old (event_at feed.now at) (said_reply result)
        front.new words.new }
{
    let kind = feed[at];
    if kind == TICK {
        damping::tick::tick_with(front, words, known);
        return Reply::Done(0, 0);
    }
    let role = families::role_of(Family::V4, kind).unwrap();
    ask(front, words, role, feed, at, known)
}

// Answers the record at `at`.
fn ask(
    front: &mut [u32],
    words: &mut [u32],
    role: Role,
    feed: &[u8],
    at: usize,
    known: bool,
) -> Reply
    requires { Asks (said_role role) front.old words.old feed.now at known }
    ensures { AskedLocally front.old words.old
        (asks (here v4 feed.now at (said_role role))) (said_reply result) front.new words.new }
{
    let end = at + 1 + ADDRESS_BYTES;
    match role {
        Role::Announcing => announce(front, words, feed, at, 1, 0, known),
        Role::Withdrawing => withdraw(front, words, feed, at, 1, known),
        Role::AnnouncingFor => {
            let from = feed[end + 3];
            let preference = feed[end + 4];
            announce(front, words, feed, at, from, preference, known)
        }
        Role::WithdrawingFor => {
            let from = feed[end + 1];
            withdraw(front, words, feed, at, from, known)
        }
        Role::Looking => lookup::lookup(words, numbers::four_at(feed, at + 1)),
        // the run stops before it
        Role::Ending => unreachable!(),
    }
}

// Answers the announcement at `at`, from a feed and with a preference.
fn announce(
    front: &mut [u32],
    words: &mut [u32],
    feed: &[u8],
    at: usize,
    from: u8,
    preference: u8,
    known: bool,
) -> Reply
    requires { Whole front.old words.old feed.now at 4 known }
    ensures { AskedLocally front.old words.old
        (asks (announce_at 4 feed.now at from preference)) (said_reply result) front.new words.new }
{
    let end = at + 1 + ADDRESS_BYTES;
    let address = numbers::four_at(feed, at + 1);
    let length = feed[end] as u32;
    let hop = numbers::two_at(feed, end + 1);
    damping::announce_with(
        front,
        words,
        address,
        length,
        hop,
        from as u32,
        preference,
        known,
    )
}

// Answers the withdrawal at `at`, from a feed.
fn withdraw(
    front: &mut [u32],
    words: &mut [u32],
    feed: &[u8],
    at: usize,
    from: u8,
    known: bool,
) -> Reply
    requires { Whole front.old words.old feed.now at 2 known }
    ensures { AskedLocally front.old words.old (asks (withdraw_at 4 feed.now at from))
        (said_reply result) front.new words.new }
{
    let address = numbers::four_at(feed, at + 1);
    let length = feed[at + 1 + ADDRESS_BYTES] as u32;
    damping::withdraw_with(front, words, address, length, from as u32, known)
}
