// The run of entries that is lent, the first for hop 1, and one entry of it.
ghost use Rattle.std.specs.Prelude.{◌≡◌, ◌/◌, ℕ, get_or, length};
ghost use Rattle.resolver.specs.Entry.{absent, plain_at};

// A hop's interface, or 0 and the gateway to look up in turn.
// kept: the C interface
#[repr(C)]
#[derive(Clone, Copy, Debug, PartialEq, Eq)]
pub struct Hop {
    pub interface: u32,
    pub gateway: u32,
}

// The interfaces are 1 to MOST_INTERFACE.
pub const MOST_INTERFACE: u32 = 64;

// An entry that is not there.
// kept: out of range and not an option, since the definitions `hops` and `plain` have `absent` stand for it
const ABSENT: Hop = Hop {
    interface: 65,
    gateway: 0,
};

// Entry i of the run; one out of range past the last.
pub fn entry_at(entries: &[Hop], i: usize) -> Hop
    ensures { result ≡ get_or entries.now i absent }
{
    entries.get(i).copied().unwrap_or(ABSENT)
}

// Entry i of plain words, two an entry; one out of range past the last.
pub fn plain_at(entries: &[u32], i: usize) -> Hop
    ensures { result ≡ plain_at entries.now i }
{
    if i >= entries.len() / 2 {
        return ABSENT;
    }
    Hop {
        interface: entries[2 * i],
        gateway: entries[2 * i + 1],
    }
}
