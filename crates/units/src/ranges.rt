//! Ranges of addresses, and the units that they touch.

ghost use Rattle.std.specs.Prelude.{◌≡◌, ◌<◌, ◌≤◌, ◌⊎◌, IfOk, if◌then◌else◌, Some, None, Ok, MatchOption};
ghost use Rattle.units.specs.declared.ranges.RangeFault.TheVariants.{Beyond};
ghost use Rattle.units.specs.Units.{array_size};
ghost use Rattle.units.specs.Ranges.{Touched, United, aligned, first_failing, in_array, inside, range_fault, touching, union, unless, wished};

use crate::address::{ARRAY_SIZE, begins, ends, unit_at};
use refusals::RunFault;

/// The bytes from `first` to `last`, both included.
#[derive(Clone, Copy, Debug, PartialEq, Eq)]
pub struct Range {
    pub first: u32,
    pub last: u32,
}

/// Why ranges are no set of units; `at` is the place of the first at fault, from 0.
#[derive(Clone, Copy, Debug, PartialEq, Eq)]
pub enum RangeFault {
    /// It ends below its start, or has an address beyond the array.
    Beyond { at: usize },
    /// It begins or ends inside a unit.
    Cut { at: usize },
}

impl Range {
    /// Whether it begins where a unit begins, and ends where one ends.
    fn is_aligned(self) -> bool
        ensures { result ≡ aligned self }
    {
        begins(self.first) && ends(self.last)
    }
}

impl From<RangeFault> for RunFault {
    ghost from_gives = { λ f r. r ≡ range_fault f };

    fn from(fault: RangeFault) -> RunFault {
        match fault {
            RangeFault::Beyond { at } => RunFault::Beyond { at },
            RangeFault::Cut { at } => RunFault::Cut { at },
        }
    }
}

/// Refuses an address beyond the array.
pub fn in_array(address: u32) -> Result<(), RunFault>
    ensures { result ≡ in_array address }
{
    if address < ARRAY_SIZE {
        Ok(())
    } else {
        Err(RunFault::Beyond { at: 0 })
    }
}

/// The units that hold a byte of the range; `None` where it ends below its start or beyond the array.
pub fn touched(range: Range) -> Option<u64>
    ensures value { result ≡ (if inside range then Some (touching range) else None) }
    ensures units { MatchOption result ((range.last < range.first) ⊎ (array_size ≤ range.last)) (Touched range) }
{
    if range.last < range.first {
        return None;
    }
    let low = unit_at(range.first)?;
    let high = unit_at(range.last)?;
    Some((2u64 << high) - (1u64 << low))
}

/// The units that the ranges touch together, or the first that is not inside the array.
fn touched_by_all(ranges: &[Range]) -> Result<u64, RangeFault>
    ensures { result ≡ unless (first_failing inside ranges.now) Beyond (Ok (union ranges.now)) }
{
    let mut set = 0;
    for (at, range) in ranges.iter().enumerate() {
        set |= touched(*range).ok_or(RangeFault::Beyond { at })?;
    }
    Ok(set)
}

/// The place of the first range that cuts a unit.
fn first_cut(ranges: &[Range]) -> Option<usize>
    ensures { result ≡ first_failing aligned ranges.now }
{
    ranges.iter().position(|range| !range.is_aligned())
}

/// The set of units that the ranges are made of. They may overlap, and no range gives the empty set.
///
/// That a range is not inside the array is tried on all before it is tried whether one cuts a unit.
pub fn units_of(ranges: &[Range]) -> Result<u64, RangeFault>
    ensures value { result ≡ wished ranges.now }
    ensures units { IfOk result (United ranges.now) }
{
    let set = touched_by_all(ranges)?;
    match first_cut(ranges) {
        Some(at) => Err(RangeFault::Cut { at }),
        None => Ok(set),
    }
}
