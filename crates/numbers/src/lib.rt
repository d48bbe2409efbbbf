// Plain numbers: of two and of four bytes in lent bytes, the high byte first; powers of 2.
#![tactic(auto)]

pub mod agree; // equal leading bits

ghost use Rattle.std.specs.Prelude.{◌≡◌, ◌+◌, ◌-◌, ◌%◌, ◌^◌, ◌<◌, ◌≤◌, length};
ghost use Rattle.std.proofs.lemmas.List.Edits.{sets};
ghost use Rattle.numbers.specs.Digits.{two, two_at, four_at};

pub fn two_at(bytes: &[u8], at: usize) -> u32
    requires { at + 2 ≤ length bytes.now }
    ensures { (result ≡ two_at bytes.now at) × (result < 65536) }
{
    u32::from(u16::from_be_bytes(bytes[at..at + 2].try_into().unwrap()))
}

pub fn four_at(bytes: &[u8], at: usize) -> u32
    requires { at + 4 ≤ length bytes.now }
    ensures { result ≡ four_at bytes.now at }
{
    u32::from_be_bytes(bytes[at..at + 4].try_into().unwrap())
}

pub fn put_two(bytes: &mut [u8], at: usize, n: u32)
    requires { at + 2 ≤ length bytes.old }
    ensures { bytes.new ≡ sets bytes.old at (two n) }
{
    let [_, _, high, low] = n.to_be_bytes();
    bytes[at] = high;
    bytes[at + 1] = low;
}

// 2 to the height n.
pub fn power(n: u32) -> u32
    requires { n < 5 }
    ensures { result ≡ 2 ^ n }
{
    1 << n
}
