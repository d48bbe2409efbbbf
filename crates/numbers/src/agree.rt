// The equal leading bits of two addresses: the leading zeros of their exclusive or.
ghost use Rattle.std.specs.Prelude.{◌≡◌, ◌-◌, ◌/◌, ◌%◌, ◌^◌, ◌≤◌, not, eqb};
ghost use Rattle.numbers.specs.Agree.{agreement};

// How many leading bits of two IPv4 addresses are equal.
pub fn bits(a: u32, b: u32) -> u32
    ensures { (result ≡ agreement 32 a b) × (result ≤ 32) }
{
    (a ^ b).leading_zeros()
}

// Whether the first l bits agree. Length 0 needs no case of its own.
#[tactic(auto, using(crate::specs::Agree::agrees))]
pub fn first(a: u32, b: u32, l: u32) -> bool
    requires { l ≤ 32 }
    ensures { result ≡ eqb (a / 2 ^ (32 - l)) (b / 2 ^ (32 - l)) }
{
    l <= bits(a, b)
}

// Whether a bit of an IPv4 address after the first l is set: then the address before it agrees in those l.
#[tactic(auto, using(crate::specs::Agree::stray_some))]
pub fn stray(a: u32, l: u32) -> bool
    requires { l ≤ 32 }
    ensures { result ≡ not (eqb (a % 2 ^ (32 - l)) 0) }
{
    a != 0 && l <= bits(a, a - 1)
}

// The same of a byte: 24 zeros before it make it an address.
pub fn stray_in(y: u8, l: u32) -> bool
    requires { l ≤ 8 }
    ensures { result ≡ not (eqb (y % 2 ^ (8 - l)) 0) }
{
    stray(u32::from(y), 24 + l)
}
