//! From an address to its unit, and from a unit to its first address.

ghost use Rattle.std.specs.Prelude.{◌≡◌, ◌+◌, ◌-◌, ◌<◌, ◌≤◌, if◌then◌else◌, Some, None, MatchOption, ◌==◌, nat_lt};
ghost use Rattle.units.specs.Units.{array_size, first_of, unit_at};

const SECTOR: u32 = 0x1000;

const BLOCK: u32 = 0x10000;

/// Where block 31 begins.
const TOP_BLOCK: u32 = 0x1f0000;

/// How many bytes the array has: the last address is one below.
pub const ARRAY_SIZE: u32 = 0x200000;

/// How many units there are: the last is one below.
pub const UNITS: u8 = 62;

/// The unit that holds the byte at the address; `None` beyond the array.
pub fn unit_at(address: u32) -> Option<u8>
    ensures value { result ≡ (if nat_lt address array_size then Some (unit_at address) else None) }
    ensures holds { MatchOption result (array_size ≤ address) (λ u. (u < 62) × (first_of u ≤ address) × (address < first_of (u + 1))) }
{
    // Stays a cast, in each arm: that a unit fits a byte is proved, and `try_from` would add a `None` that cannot come.
    match address {
        0..BLOCK => Some((address / SECTOR) as u8),
        BLOCK..TOP_BLOCK => Some((15 + address / BLOCK) as u8),
        TOP_BLOCK..ARRAY_SIZE => Some((46 + (address - TOP_BLOCK) / SECTOR) as u8),
        _ => None,
    }
}

/// The first address of the unit; `None` beyond the last.
pub fn first_address(unit: u8) -> Option<u32>
    ensures { result ≡ (if nat_lt unit 62 then Some (first_of unit) else None) }
{
    match unit {
        0..16 => Some(u32::from(unit) * SECTOR),
        16..46 => Some(u32::from(unit - 15) * BLOCK),
        46..UNITS => Some(TOP_BLOCK + u32::from(unit - 46) * SECTOR),
        _ => None,
    }
}

/// The size of the units around the address.
fn unit_size(address: u32) -> u32
    ensures { result ≡ first_of (unit_at address + 1) - first_of (unit_at address) }
{
    match address {
        BLOCK..TOP_BLOCK => BLOCK,
        _ => SECTOR,
    }
}

/// Whether a unit begins at the address.
pub(crate) fn begins(address: u32) -> bool
    ensures { result ≡ (address == first_of (unit_at address)) }
{
    address % unit_size(address) == 0
}

/// Whether a unit ends at the address.
pub(crate) fn ends(address: u32) -> bool
    ensures { result ≡ (address + 1 == first_of (unit_at address + 1)) }
{
    let size = unit_size(address);
    address % size == size - 1
}
