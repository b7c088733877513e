//! The units of a 2 MiB serial flash that block protection tells apart, and sets of them.
//!
//! Units 0 to 15 are the 4 KB sectors of block 0, units 16 to 45 the 64 KB blocks 1 to 30, units 46 to 61 the 4 KB
//! sectors of block 31. A set of units is a number of 62 bits, unit `u` at bit `u`.

// Stays plain numbers, a set a u64, a unit and a code a u8: callers may give any, and a type with the bound asks more of them.

#![tactic(auto)]

mod address;
mod codes;
mod ranges;

pub use address::{ARRAY_SIZE, UNITS, first_address, unit_at};
pub use codes::{code_of, set_of};
pub use ranges::{Range, RangeFault, in_array, touched, units_of};
