// The bytes of a written-out list: whether they are one, what each record says, which candidate of a prefix wins, and how many
// routes and how many different heads the list has.
#![tactic(auto)]

ghost use Rattle.std.specs.Prelude.{◌≡◌, ◌*◌, ◌-◌, ◌/◌, ◌^◌, ◌<◌, ◌≤◌, length, MatchOption};
ghost use Rattle.routes.specs.Route.{route};
ghost use Rattle.routes.specs.Room.{distinct, need};
ghost use Rattle.candidates.specs.Candidate.{key, prefix_key, IsList};
ghost use Rattle.candidates.specs.Winners.{rank as rank_of};
ghost use Rattle.listing.specs.Listed.{fours, kind_of, size_of, records_in, candidate_at, candidates_in, list_of};
ghost use Rattle.listing.specs.Listed.{route_b, candidate_b, record_b, listed_in, listed, unlisted};
ghost use Rattle.listing.specs.One.{list_prop};
ghost use Rattle.listing.specs.Heads.{picks, between, last_head, Counted};
ghost use Rattle.listing.specs.Records.{added_at, Begins, Reads};
ghost use Rattle.listing.specs.Winning.{winning_at, IsLast, LastOf};

// ---- where the records are

// Whether they are of kind 4: the first byte says so.
fn is_fours(bytes: &[u8]) -> bool
    ensures { result ≡ fours bytes.now }
{
    matches!(bytes, [4, ..])
}

// The bytes of a record.
fn size(bytes: &[u8]) -> usize
    ensures { (result ≡ size_of (fours bytes.now)) × (8 ≤ result) × (result ≤ 10) }
{
    if is_fours(bytes) { 10 } else { 8 }
}

// How many records there are.
pub fn records(bytes: &[u8]) -> usize
    ensures { (result ≡ records_in bytes.now) × (8 * result ≤ length bytes.now) }
{
    // by constants, as a division of 64 bits by another number is a call where words have 32
    if is_fours(bytes) {
        bytes.len() / 10
    } else {
        bytes.len() / 8
    }
}

// The list's kind.
fn kind(bytes: &[u8]) -> u8
    ensures { result ≡ kind_of (fours bytes.now) }
{
    if is_fours(bytes) { 4 } else { 1 }
}

// ---- a record

// Record i of the bytes.
#[derive(Clone, Copy)]
pub struct Record<'a> {
    pub bytes: &'a [u8],
    pub i: usize,
    pub ghost inside: { i < records_in bytes.now },
}

impl Record<'_> {
    ghost use Rattle.listing.specs.Record.{said};

    // Where it begins.
    fn begin(self) -> usize
        ensures { Begins self.entry.bytes.now self.entry.i result }
    {
        size(self.bytes) * self.i
    }

    // The length of its prefix.
    pub fn bits(self) -> u32
        ensures { (result ≡ (said self.entry).len) × (result < 256) }
    {
        self.bytes[self.begin() + 5] as u32
    }

    fn hop(self) -> u32
        ensures { (result ≡ (said self.entry).hop) × (result < 65536) }
    {
        numbers::two_at(self.bytes, self.begin() + 6)
    }

    fn address(self) -> u32
        ensures { result ≡ (said self.entry).addr }
    {
        numbers::four_at(self.bytes, self.begin() + 1)
    }

    // Its byte n in a list of kind 4. Records of kind 1 are shorter, and d stands for it there.
    fn added(self, n: usize, d: u32) -> u32
        requires { (n < 10) × (d < 256) }
        ensures { (result ≡ added_at self.entry.bytes.now self.entry.i n d) × (result < 256) }
    {
        if !is_fours(self.bytes) {
            return d;
        }
        self.bytes[self.begin() + n] as u32
    }

    // A record of kind 1 means feed 1, preference 0.
    fn feed(self) -> u32
        ensures { (result ≡ (said self.entry).feed) × (result < 256) }
    {
        self.added(8, 1)
    }

    fn preference(self) -> u32
        ensures { (result ≡ (said self.entry).pref) × (result < 256) }
    {
        self.added(9, 0)
    }

    // The first m bits of its address, as a number.
    pub fn head(self, m: u32) -> u32
        requires { (1 ≤ m) × (m ≤ 32) }
        ensures { result ≡ (said self.entry).addr / 2 ^ (32 - m) }
    {
        self.address() >> (32 - m)
    }

    // Its prefix as a number, which orders the prefixes.
    fn prefix(self) -> u64
        ensures { (result ≡ prefix_key (said self.entry)) × (result < 1099511627776) }
    {
        self.address() as u64 * 256 + self.bits() as u64
    }

    // And with its feed, which orders the records.
    fn key(self) -> u64
        ensures { result ≡ key (said self.entry) }
    {
        self.prefix() * 8 + self.feed() as u64
    }

    // The lowest wins: by preference, then by feed.
    fn rank(self) -> u32
        ensures { result ≡ rank_of (said self.entry) }
    {
        self.preference() * 8 + self.feed()
    }

    // Whether it announces a route of a feed.
    fn is_candidate(self) -> bool
        ensures { result ≡ candidate_b (said self.entry) }
    {
        is_route(self.address(), self.bits(), self.hop()) && (1..=4).contains(&self.feed())
    }

    // Whether it is of the list's kind, announces a route, and comes after the one before.
    fn is_right(self) -> bool
        ensures { result ≡ record_b self.entry.bytes.now self.entry.i }
    {
        let bytes = self.bytes;
        if bytes[self.begin()] != kind(bytes) || !self.is_candidate() {
            return false;
        }
        if self.i == 0 {
            return true;
        }
        let i = self.i - 1;
        (Record { bytes, i }).key() < self.key()
    }

    // Whether it is the last of its prefix.
    fn is_last(self) -> bool
        ensures { IsLast self.entry.bytes.now self.entry.i result }
    {
        let bytes = self.bytes;
        let i = self.i + 1;
        i == records(bytes) || (Record { bytes, i }).prefix() != self.prefix()
    }

    // Which record is the last of its prefix.
    fn last(self) -> usize
        ensures { LastOf self.entry.bytes.now self.entry.i result }
    {
        let bytes = self.bytes;
        let end = records(bytes) - 1;
        for i in self.i..end {
            if (Record { bytes, i }).is_last() {
                return i;
            }
        }
        end
    }
}

// ---- whether the bytes are a list

fn is_route(address: u32, length: u32, hop: u32) -> bool
    ensures { result ≡ route_b (route address length hop) }
{
    length <= 32 && !numbers::agree::stray(address, length) && (1..=65535).contains(&hop)
}

// Whether the bytes are a list: records in order, and their end. How many arrays it needs is not asked.
pub fn is_listed(bytes: &[u8]) -> bool
    ensures { Reads bytes.now result }
{
    let size = size(bytes);
    let n = bytes.len() / size;
    if bytes.len() % size != 1 || bytes[size * n] != 0 {
        return false;
    }
    for i in 0..n {
        if !(Record { bytes, i }).is_right() {
            return false;
        }
    }
    true
}

// A length from one to another, both counted.
pub fn is_between(from: u32, to: u32, l: u32) -> bool
    ensures { result ≡ between from to l }
{
    (from..=to).contains(&l)
}

// One more, unless the first m bits are those of the address before.
fn counted(seen: usize, address: u32, last: Option<u32>, m: u32) -> usize
    requires { (seen < 2 ^ 63) × (m ≤ 32) }
    ensures { Counted seen (address / 2 ^ (32 - m)) (last_head m last) result }
{
    match last {
        Some(other) if numbers::agree::first(address, other, m) => seen,
        _ => seen + 1,
    }
}

// ---- a list

// Bytes that are a list.
#[derive(Clone, Copy)]
pub struct Listed<'a> {
    pub bytes: &'a [u8],
    pub ghost list: { IsList 32 (candidates_in bytes.now) } by { list_prop (candidates_in bytes.now) },
}

impl<'a> Listed<'a> {
    ghost use Rattle.listing.specs.Record.{said};

    pub fn of(bytes: &'a [u8]) -> Option<Listed<'a>>
        ensures { MatchOption result (listed_in bytes.now ≡ unlisted)
            (λ l. (l.bytes.now ≡ bytes.now) × (listed_in bytes.now ≡ listed (list_of bytes.now))) }
    {
        if !is_listed(bytes) {
            return None;
        }
        Some(Listed { bytes })
    }

    // How many records it has.
    pub fn records(self) -> usize
        ensures { (result ≡ records_in self.entry.bytes.now) × (8 * result ≤ length self.entry.bytes.now) }
    {
        records(self.bytes)
    }

    pub fn record(self, i: usize) -> Record<'a>
        requires { i < records_in self.bytes.now }
        ensures { said result ≡ candidate_at self.entry.bytes.now i }
    {
        Record {
            bytes: self.bytes,
            i,
        }
    }

    // The hop that wins for record i's prefix: the records of a prefix are neighbours.
    pub fn winner(self, i: usize) -> u32
        requires { i < records_in self.bytes.now }
        ensures { (result ≡ winning_at self.entry.bytes.now i) × (result < 65536) }
    {
        let bytes = self.bytes;
        let j = Record { bytes, i }.last();
        let last = Record { bytes, i: j };
        let mut best = last.rank();
        let mut via = last.hop();
        for i in (0..j).rev() {
            let other = Record { bytes, i };
            if other.is_last() {
                return via;
            }
            let rank = other.rank();
            if rank <= best {
                best = rank;
                via = other.hop();
            }
        }
        via
    }

    // How many routes it has: one for each prefix.
    pub fn routes(self) -> usize
        ensures { result ≡ length (list_of self.entry.bytes.now) }
    {
        let bytes = self.bytes;
        let mut seen = 0;
        for i in (0..records(bytes)).rev() {
            if (Record { bytes, i }).is_last() {
                seen += 1;
            }
        }
        seen
    }

    // How many different heads of m bits the routes of the lengths from .. to have. Heads rise with the records, so equal ones
    // are neighbours.
    pub fn count(self, from: u32, to: u32, m: u32) -> usize
        requires { m ≤ 32 }
        ensures { result ≡ distinct (picks (between from to) m (list_of self.entry.bytes.now)) }
    {
        let bytes = self.bytes;
        let mut seen = 0;
        let mut last = None;
        for i in (0..records(bytes)).rev() {
            let record = Record { bytes, i };
            if is_between(from, to, record.bits()) {
                let address = record.address();
                seen = counted(seen, address, last, m);
                last = Some(address);
            }
        }
        seen
    }

    // The arrays that a table needs for it: one, and for each level below the root as many as it has heads.
    pub fn arrays(self) -> usize
        ensures { result ≡ need 32 (list_of self.entry.bytes.now) }
    {
        let mut sum = 1;
        for k in 1..4 {
            sum += self.count(8 * k + 1, 32, 8 * k);
        }
        sum
    }
}
