// A prefix of an array by its slot, and where two of them differ.
ghost use Rattle.std.specs.Prelude.{◌≡◌, ◌<◌, ◌≤◌};
ghost use Rattle.sizes.specs.Sizes.{slot_end, cell_count};
ghost use Rattle.masks.specs.Prefix.{spare as spare_of, value as value_of, reach as reachOf};
ghost use Rattle.masks.specs.Prefix.{parted as partedBy, added as addedBy};

#[derive(Clone, Copy)]
pub struct Prefix {
    pub slot: usize,
    ghost inside: { (1 ≤ slot) × (slot < slot_end) },
}

impl Prefix {
    // The bits of a byte after those of the prefix.
    pub fn spare(self) -> u32
        ensures { (result ≡ spare_of self.slot) × (result ≤ 8) }
    {
        (self.slot as u32).leading_zeros() - 23
    }

    // Its bits, with 0 after them.
    pub fn value(self) -> u32
        ensures { (result ≡ value_of self.slot) × (result < cell_count) }
    {
        let e = self.spare();
        ((self.slot as u32) << e) - 256
    }

    // 1 for each bit that it has.
    pub fn reach(self) -> u32
        ensures { (result ≡ reachOf self.slot) × (result < cell_count) }
    {
        let e = self.spare();
        256 - (1 << e)
    }

    // The bits in which two differ, of those that both have.
    pub(crate) fn parted(self, other: Prefix) -> u32
        ensures { (result ≡ partedBy self.slot other.slot) × (result < cell_count) }
    {
        (self.value() ^ other.value()) & (self.reach() & other.reach())
    }

    // The bits that only the longer has.
    pub(crate) fn added(self, other: Prefix) -> u32
        ensures { (result ≡ addedBy self.slot other.slot) × (result < cell_count) }
    {
        self.reach() ^ other.reach()
    }
}
