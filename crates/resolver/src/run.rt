// A run of entries, however its words are lent.
ghost use Rattle.std.specs.Prelude.{◌≡◌, ◌/◌, ℕ, get_or, length};
ghost use Rattle.resolver.specs.Entry.{absent, plain_at};
ghost use Rattle.resolver.specs.declared.entry.Hop.{Hop};

use super::entry;
use super::entry::Hop;

pub(crate) trait Run: Drop {
    // how many entries there are
    ghost entries: { Self → ℕ };

    // the entry at a place
    ghost at: { Self → ℕ → Hop };

    fn count(&self) -> usize
        ensures { result ≡ entries self.now };

    fn entry(&self, i: usize) -> Hop
        ensures { result ≡ at self.now i };
}

// Entries as they are.
impl Run for &[Hop] {
    ghost entries = { λ s. length s.now };

    ghost at = { λ s i. get_or s.now i absent };

    fn count(&self) -> usize {
        self.len()
    }

    fn entry(&self, i: usize) -> Hop {
        entry::entry_at(self, i)
    }
}

// Entries as plain words, two an entry.
#[derive(Drop)]
pub(crate) struct Plain<'a>(pub(crate) &'a [u32]);

impl Run for Plain<'_> {
    ghost entries = { λ s. length s.0.now / 2 };

    ghost at = { λ s. plain_at s.0.now };

    fn count(&self) -> usize {
        self.0.len() / 2
    }

    fn entry(&self, i: usize) -> Hop {
        entry::plain_at(self.0, i)
    }
}
