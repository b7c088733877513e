//! What each block protection code protects.

ghost use Rattle.std.specs.Prelude.{◌≡◌, ℕ, ◌^◌, ◌<◌, ◌≤◌, min, if◌then◌else◌, Some, None, MatchOption, nat_lt};
ghost use Rattle.units.specs.Codes.{set_of};

/// The units that each code protects; the code is 32 CMP + 16 SEC + 8 TB + 4 BP2 + 2 BP1 + BP0.
const SETS: [u64; 64] = [
    0x0000000000000000,
    0x3fffc00000000000,
    0x3fffe00000000000,
    0x3ffff80000000000,
    0x3fffff8000000000,
    0x3fffffff80000000,
    0x3fffffffffffffff,
    0x3fffffffffffffff,
    0x0000000000000000,
    0x000000000000ffff,
    0x000000000001ffff,
    0x000000000007ffff,
    0x00000000007fffff,
    0x000000007fffffff,
    0x3fffffffffffffff,
    0x3fffffffffffffff,
    0x0000000000000000,
    0x2000000000000000,
    0x3000000000000000,
    0x3c00000000000000,
    0x3fc0000000000000,
    0x3fc0000000000000,
    0x3fffffffffffffff,
    0x3fffffffffffffff,
    0x0000000000000000,
    0x0000000000000001,
    0x0000000000000003,
    0x000000000000000f,
    0x00000000000000ff,
    0x00000000000000ff,
    0x3fffffffffffffff,
    0x3fffffffffffffff,
    0x3fffffffffffffff,
    0x00003fffffffffff,
    0x00001fffffffffff,
    0x000007ffffffffff,
    0x0000007fffffffff,
    0x000000007fffffff,
    0x0000000000000000,
    0x0000000000000000,
    0x3fffffffffffffff,
    0x3fffffffffff0000,
    0x3ffffffffffe0000,
    0x3ffffffffff80000,
    0x3fffffffff800000,
    0x3fffffff80000000,
    0x0000000000000000,
    0x0000000000000000,
    0x3fffffffffffffff,
    0x1fffffffffffffff,
    0x0fffffffffffffff,
    0x03ffffffffffffff,
    0x003fffffffffffff,
    0x003fffffffffffff,
    0x0000000000000000,
    0x0000000000000000,
    0x3fffffffffffffff,
    0x3ffffffffffffffe,
    0x3ffffffffffffffc,
    0x3ffffffffffffff0,
    0x3fffffffffffff00,
    0x3fffffffffffff00,
    0x0000000000000000,
    0x0000000000000000,
];

/// The units that the code protects; `None` where it has more than the six bits of a code.
pub fn set_of(code: u8) -> Option<u64>
    ensures value { result ≡ (if nat_lt code 64 then Some (set_of code) else None) }
    ensures small { MatchOption result (64 ≤ code) (λ m. m < 2 ^ 62) }
{
    SETS.get(code as usize).copied()
}

/// The smallest code, of those below `codes`, that protects just this set.
pub fn code_of(set: u64, codes: u8) -> Option<u8>
    ensures { MatchOption result
        ((k : ℕ) → k < min codes 64 → set_of k ≡ set → ⊥)
        (λ c. (c < min codes 64) × (set_of c ≡ set) × ((k : ℕ) → k < c → set_of k ≡ set → ⊥)) }
{
    // from 64 on no code gives any set
    (0..codes.min(64)).find(|code| set_of(*code) == Some(set))
}
