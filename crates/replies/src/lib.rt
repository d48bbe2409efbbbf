// What a record is answered with, by the calls and by the run alike, and its bytes; and what a lookup in a read-only copy is
// answered with.
#![tactic(auto)]

ghost use Rattle.std.specs.Prelude.{◌≡◌, cond, ◌+◌, ◌≤◌, length};
ghost use Rattle.numbers.specs.Wrote.{Wrote};
ghost use Rattle.routes.specs.Answers.{is_done, is_refused};
ghost use Rattle.routes.specs.Bytes.{reply_bytes};
ghost use Rattle.replies.specs.Said.{said_reply};

// An update is done or refused, a lookup found, nothing or refused.
#[derive(Clone, Copy, Debug, PartialEq, Eq)]
pub enum Reply {
    // hop and cells
    Done(u32, u32),
    // hop and length of the longest match, and the block of the address
    Found(u32, u32, u32),
    // the block of the address
    Nothing(u32),
    // kept: a number and not a `Refusal`, since the theorem said_back has each reply of the documents said by an answer
    Refused(u32),
}

// The longest match in a copy, which knows no block.
#[derive(Clone, Copy, Debug, PartialEq, Eq)]
pub struct Best {
    pub hop: u32,
    pub length: u32,
}

// Whether an update was done.
pub fn is_done(r: Reply) -> bool
    ensures { result ≡ is_done (said_reply r) }
{
    matches!(r, Reply::Done(..))
}

// 1 for an update that was done.
pub fn accepts(r: Reply) -> usize
    ensures { (result ≡ cond (is_done (said_reply r)) 1 0) × (result ≤ 1) }
{
    usize::from(is_done(r))
}

// 1 for a record that was refused.
pub fn refuses(r: Reply) -> usize
    ensures { (result ≡ cond (is_refused (said_reply r)) 1 0) × (result ≤ 1) }
{
    usize::from(matches!(r, Reply::Refused(_)))
}

// Writes a reply, and returns the place after it.
pub fn put(reply: &mut [u8], at: usize, r: Reply) -> usize
    requires { at + 5 ≤ length reply.old }
    ensures { Wrote reply.old at (reply_bytes (said_reply r)) result reply.new }
{
    match r {
        Reply::Done(hop, cells) => {
            reply[at] = 16;
            numbers::put_two(reply, at + 1, hop);
            numbers::put_two(reply, at + 3, cells);
            at + 5
        }
        Reply::Found(hop, length, block) => {
            reply[at] = 17;
            numbers::put_two(reply, at + 1, hop);
            reply[at + 3] = (length % 256) as u8;
            reply[at + 4] = (block % 256) as u8;
            at + 5
        }
        Reply::Nothing(block) => {
            reply[at] = 18;
            reply[at + 1] = (block % 256) as u8;
            at + 2
        }
        Reply::Refused(n) => {
            reply[at] = 19;
            reply[at + 1] = (n % 256) as u8;
            at + 2
        }
    }
}
