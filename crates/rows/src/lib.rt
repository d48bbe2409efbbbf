// The words of a front: whether they are one, its rows, and the candidate of a row as one number.
#![tactic(auto)]

ghost use Rattle.std.specs.Prelude.{◌≡◌};
ghost use Rattle.logic.specs.Reflects.{Reflects};
ghost use Rattle.front.specs.Place.{key};
ghost use Rattle.rows.specs.Row.{row_at, decode, IsWords, candidate_b, mark_b, after_b, row_b};
ghost use Rattle.rows.specs.Code.{row_of, HasRow};

// The words of a row and of a front; how many rows there are, each for a place, and the last of them.
pub const ROW_WORDS: usize = 4;

// kept: a front is a slice of so many words, since of a lent `&mut [u32]` that becomes an array nothing is known at its end.
pub const FRONT_WORDS: usize = 1024;

pub const MOST_PLACES: usize = 256;

pub const LAST_PLACE: usize = 255;

// The words of a row: an address, its length * 8 + its feed, its penalty * 2 + whether it is held back, and what is kept.
// kept: 0 for no mark and for nothing kept, since the words of a front are those of the definition `IsWords`
#[derive(Clone, Copy, Debug, PartialEq, Eq)]
pub struct Row {
    pub address: u32,
    pub who: u32,
    pub mark: u32,
    pub kept: u32,
}

// A row with no place.
pub const UNUSED: Row = Row {
    address: 0,
    who: 0,
    mark: 0,
    kept: 0,
};

impl Row {
    // The candidate as one number.
    pub fn key(self) -> u64
        ensures { result ≡ key (decode (row_of self)) }
    {
        self.address as u64 * 2048 + self.who as u64
    }

    fn is_candidate(self) -> bool
        ensures { result ≡ candidate_b self.address self.who }
    {
        let length = self.who / 8;
        length <= 32
            && !numbers::agree::stray(self.address, length)
            && matches!(self.who % 8, 1..=4)
    }

    fn is_mark(self) -> bool
        ensures { result ≡ mark_b self.mark self.kept }
    {
        let penalty = self.mark / 2;
        penalty <= 12000
            && self.kept < 16777216
            && match (self.mark % 2, self.kept) {
                (0, 0) => penalty <= 3000,
                (0, _) => false,
                (_, 0) => penalty >= 750,
                (_, kept) => kept % 65536 != 0,
            }
    }
}

impl From<[u32; ROW_WORDS]> for Row {
    ghost from_gives = { λ words row. row_of row ≡ row_at words 0 };

    fn from([address, who, mark, kept]: [u32; ROW_WORDS]) -> Row {
        Row {
            address,
            who,
            mark,
            kept,
        }
    }
}

pub fn row_at(words: &[u32], i: usize) -> Row
    requires { HasRow words.now i }
    ensures { row_of result ≡ row_at words.now i }
{
    let at = ROW_WORDS * i;
    Row {
        address: words[at],
        who: words[at + 1],
        mark: words[at + 2],
        kept: words[at + 3],
    }
}

// The candidate of row i as one number.
pub fn key_at(words: &[u32], i: usize) -> u64
    requires { HasRow words.now i }
    ensures { result ≡ key (decode (row_at words.now i)) }
{
    row_at(words, i).key()
}

// ---- whether the words are a front

// Row i stands after the row before it.
fn is_after(words: &[u32], i: usize) -> bool
    requires { HasRow words.now i }
    ensures { result ≡ after_b (row_at words.now) i }
{
    if i == 0 {
        return true;
    }
    let before = row_at(words, i - 1);
    before.mark != 0 && before.key() < key_at(words, i)
}

#[tactic(auto, unfolding(crate::specs::Row::row_b))]
fn is_row(words: &[u32], i: usize) -> bool
    requires { HasRow words.now i }
    ensures { result ≡ row_b (row_at words.now) i }
{
    let row = row_at(words, i);
    if row.mark == 0 {
        return row == UNUSED;
    }
    row.is_candidate() && row.is_mark() && is_after(words, i)
}

pub fn is_front(words: &[u32]) -> bool
    ensures { Reflects result (IsWords words.now) }
{
    words.len() == FRONT_WORDS && (0..MOST_PLACES).all(|i| is_row(words, i))
}
