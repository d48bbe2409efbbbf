// A set of hops as a word: bit h - 1 is set for hop h, from 1 to 32.
ghost use Rattle.std.specs.Prelude.{◌≡◌, ◌≤◌};
ghost use Rattle.shortest.specs.HopSet.{only};
ghost use Rattle.shortest.specs.Chosen.{meet, pick, under as underOf};
ghost use Rattle.shortest.specs.Inside.{apart};

// A hop, or where it is 0 the one from above.
pub(crate) fn under(own: u32, above: u32) -> u32
    ensures { result ≡ underOf own above }
{
    if own == 0 { above } else { own }
}

// The set of one hop.
pub(crate) fn single(hop: u32) -> u32
    requires { (1 ≤ hop) × (hop ≤ 32) }
    ensures { result ≡ only hop }
{
    1 << (hop - 1)
}

// What two sets have in common, or all of both if that is nothing.
pub(crate) fn join(x: u32, y: u32) -> u32
    ensures { result ≡ meet x y }
{
    match x & y {
        0 => x | y,
        common => common,
    }
}

// 1 if two sets have nothing in common.
pub(crate) fn price(x: u32, y: u32) -> usize
    ensures { (result ≡ apart x y) × (result ≤ 1) }
{
    usize::from(x & y == 0)
}

// The hop of the route that a prefix with this set gets, 0 for none, where a hop comes from above. Without a set the lowest hop
// is 33, so a scratch may hold anything.
pub(crate) fn choose(set: u32, above: u32) -> u32
    requires { above ≤ 33 }
    ensures { (result ≡ pick 32 set above) × (result ≤ 33) }
{
    let lowest = set.trailing_zeros() + 1;
    // Neither is a hop of a set.
    if above == 0 || above == 33 {
        return lowest;
    }
    if (set >> (above - 1)) % 2 == 1 {
        0
    } else {
        lowest
    }
}
