// A family of addresses by value: how many bytes an address has, and what a kind of record in a feed stands for.
#![tactic(auto)]

ghost use Rattle.std.specs.Prelude.{◌≡◌, ◌≤◌};
ghost use Rattle.routes.specs.Family.{v4, v6, levels as levelsOf, kind_of, announcing_for, role_of};
ghost use Rattle.families.specs.Said.{said_family, said_kind, family_for};

#[derive(Clone, Copy, Debug, PartialEq, Eq)]
pub enum Family {
    V4,
    V6,
}

// The bytes of an address, each a level of arrays.
pub fn levels(family: Family) -> usize
    ensures { (result ≡ levelsOf (said_family family)) × (1 ≤ result) × (result ≤ 16) }
{
    match family {
        Family::V4 => 4,
        Family::V6 => 16,
    }
}

// What a record asks for: with a feed's number and a preference, or without.
#[derive(Clone, Copy, Debug, PartialEq, Eq)]
pub enum Role {
    Ending,
    Announcing,
    Withdrawing,
    Looking,
    AnnouncingFor,
    WithdrawingFor,
}

// The role of a kind in IPv4, if it has one.
fn role_4(kind: u8) -> Option<Role>
    ensures { said_kind result ≡ role_of v4 kind }
{
    match kind {
        0 => Some(Role::Ending),
        1 => Some(Role::Announcing),
        2 => Some(Role::Withdrawing),
        3 => Some(Role::Looking),
        4 => Some(Role::AnnouncingFor),
        5 => Some(Role::WithdrawingFor),
        _ => None,
    }
}

// The same in IPv6, where each update names its feed.
// kept: two tables of kinds, as the documents have them, and no one table with a family in it.
fn role_6(kind: u8) -> Option<Role>
    ensures { said_kind result ≡ role_of v6 kind }
{
    match kind {
        0 => Some(Role::Ending),
        8 => Some(Role::Looking),
        6 => Some(Role::AnnouncingFor),
        7 => Some(Role::WithdrawingFor),
        _ => None,
    }
}

// What a kind asks for in a family: nothing where it is of the other family, or of none.
pub fn role_of(family: Family, kind: u8) -> Option<Role>
    ensures { said_kind result ≡ role_of (said_family family) kind }
{
    match family {
        Family::V4 => role_4(kind),
        Family::V6 => role_6(kind),
    }
}

// The kind of the records that a list is written out with, by the bytes of an address.
pub fn list_kind(levels: usize) -> u8
    ensures { result ≡ kind_of (family_for levels) announcing_for }
{
    if levels == 4 { 4 } else { 6 }
}
