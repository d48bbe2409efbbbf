// An address as lent bytes, the high one first. It has as many bytes as a table has levels: four in IPv4.
#![tactic(auto)]

ghost use Rattle.std.specs.Prelude.{◌≡◌, ℕ, ◌+◌, ◌*◌, ◌-◌, ◌%◌, ◌<◌, ◌≤◌, not, eqb, length as size, drop};
ghost use Rattle.std.specs.List.{list_any};
ghost use Rattle.routes.specs.Route.{stray as strayOf};
ghost use Rattle.routes.specs.Room.{level as levelOf};
ghost use Rattle.numbers.specs.Digits.{four};
ghost use Rattle.numbers.specs.Front.{byte_of};
ghost use Rattle.sizes.specs.Sizes.{level_bound};
ghost use Rattle.refusals.specs.Number.{fault};
ghost use Rattle.address.specs.Address.{Stands, prefix_fault};
ghost use Rattle.numbers.specs.Number.{number};

use refusals::Refusal;
use std::convert::AsSlice;

// An address by value: in IPv4 a number, in IPv6 sixteen bytes.
pub trait Address: Copy {
    type Bytes: AsSlice<u8> + Copy;

    // How many bytes it has.
    ghost levels: { ℕ };

    // The number that these stand for.
    ghost value: { Self → ℕ };

    fn bytes(self) -> Self::Bytes
        ensures sized { size (Self.Bytes.items result) ≡ levels }
        ensures valued { number (Self.Bytes.items result) ≡ value self };

    ghost some_level: { 1 ≤ levels };

    ghost most_levels: { levels ≤ 16 };
}

impl Address for u32 {
    ghost use Rattle.std.proofs.Common.{rules};

    type Bytes = [u8; 4];

    ghost levels = { 4 };

    ghost value = { λ a. a };

    fn bytes(self) -> [u8; 4] {
        four_of(self)
    }

    ghost some_level = { Prim.search rules };

    ghost most_levels = { Prim.search rules };
}

impl Address for [u8; 16] {
    ghost use Rattle.std.proofs.Common.{rules};

    type Bytes = [u8; 16];

    ghost levels = { 16 };

    ghost value = { number };

    fn bytes(self) -> [u8; 16] {
        self
    }

    ghost some_level = { Prim.search rules };

    ghost most_levels = { Prim.search rules };
}

// The bytes of an IPv4 address.
pub fn four_of(address: u32) -> [u8; 4]
    ensures { result ≡ four address }
{
    address.to_be_bytes()
}

// An IPv6 address by value: sixteen lent bytes.
pub fn sixteen_of(bytes: &[u8]) -> [u8; 16]
    requires { size bytes.now ≡ 16 }
    ensures { result ≡ bytes.now }
{
    bytes.try_into().unwrap()
}

// The byte of level k.
#[tactic(auto, using(numbers::proofs::Number::number_byte))]
pub fn byte_at(address: &[u8], k: usize) -> usize
    requires { k < size address.now }
    ensures { (result ≡ byte_of (size address.now) (number address.now) k) × (result < 256) }
{
    address[k] as usize
}

// The level of a length.
fn level(length: u32) -> usize
    ensures { result ≡ levelOf length }
{
    (length.saturating_sub(1) / 8) as usize
}

// Where a prefix stands: the level of its array, and its length and value there.
#[derive(Clone, Copy, Debug, PartialEq, Eq)]
pub struct Place {
    pub level: usize,
    pub depth: usize,
    pub value: usize,
}

pub fn place_of(address: &[u8], length: u32) -> Place
    requires { (1 ≤ size address.now) × (length ≤ 8 * size address.now) }
    ensures { Stands (size address.now) (number address.now) length
        result.level result.depth result.value }
{
    let level = level(length);
    let depth = length as usize - 8 * level;
    let value = byte_at(address, level) >> (8 - depth);
    Place {
        level,
        depth,
        value,
    }
}

// ---- the bits after a length

// Whether a byte is not 0.
fn some_set(bytes: &[u8]) -> bool
    ensures { result ≡ list_any (λ y. not (eqb y 0)) bytes.now }
{
    bytes.iter().any(|y| *y != 0)
}

// Whether a bit after the length is set.
#[tactic(auto, using(crate::proofs::Laws::stray_here, crate::proofs::Laws::stray_rest, std::proofs::lemmas::List::take_rest))]
pub fn stray(address: &[u8], length: u32) -> bool
    requires { length ≤ 8 * size address.now }
    ensures { result ≡ strayOf (8 * size address.now) (number address.now) length }
{
    let k = (length / 8) as usize;
    if k == address.len() {
        return false;
    }
    numbers::agree::stray_in(address[k], length % 8) || some_set(&address[k + 1..])
}

// The first fault of a prefix, if it has one.
pub fn prefix_fault(address: &[u8], length: u32) -> Result<(), Refusal>
    requires { size address.now < level_bound }
    ensures { fault result ≡ prefix_fault (8 * size address.now) (number address.now) length }
{
    let width = 8 * address.len() as u32;
    if length > width {
        return Err(Refusal::Length);
    }
    if stray(address, length) {
        return Err(Refusal::Stray);
    }
    Ok(())
}
