// The effect of commands, as functions on values: what the chips and the picture of a chip share.
ghost use Rattle.chip.specs.Effect.{number_of, part_of, bits2, bits_of, lock_bits, plain_face, Clear, Plain, order_of, bare, with_byte, with_two, at_address, accepts, locked, suspended, armed, armed_stored, second, written, lasting, relocked, locks_after, face_after, arming_after};
ghost use Rattle.std.specs.Prelude.{◌≡◌, ◌==◌, ◌/◌, ◌%◌, ◌+◌, ◌*◌, ◌^◌, ◌<◌, bit_and, MatchBool};

use crate::model::{
    Arming, Bits, Bytes, Command, Face, Order, Part, RegisterWrite, Registers, Relock, Start,
};

// All 62 lock bits.
pub const ALL_LOCKS: u64 = 0x3FFF_FFFF_FFFF_FFFF;

// The part of a part number.
impl From<u32> for Part {
    ghost from_gives = { λ number part. part ≡ part_of number };

    fn from(number: u32) -> Part {
        match number {
            0xEF8015 => Part::Jw,
            0xEF3015 => Part::Xa,
            _ => Part::Other(number),
        }
    }
}

// The part number of a part.
impl From<Part> for u32 {
    ghost from_gives = { λ part number. number ≡ number_of part };

    fn from(part: Part) -> u32 {
        match part {
            Part::Jw => 0xEF8015,
            Part::Xa => 0xEF3015,
            Part::Other(number) => number,
        }
    }
}

// The bits that a part has, of SR1 less WEL and BUSY.
pub fn bits_of(part: Part) -> Bits
    ensures { result ≡ bits_of part }
{
    let (sr1, sr2, sr3, locks) = match part {
        Part::Jw => (0xFC, 0xFB, 0xE4, ALL_LOCKS),
        Part::Xa => (0xBC, 0, 0, 0),
        Part::Other(_) => (0xFC, 0xFF, 0xFF, ALL_LOCKS),
    };
    Bits {
        registers: Registers { sr1, sr2, sr3 },
        locks,
    }
}

// Whether a chip of a part may start with these registers and lock bits: no bit is set that the part lacks.
pub fn fits(part: Part, start: Start) -> bool
    ensures { MatchBool result (Clear part start.registers × (bit_and start.locks (lock_bits part) ≡ start.locks)) (Clear part start.registers × (bit_and start.locks (lock_bits part) ≡ start.locks) → ⊥) }
{
    let bits = bits_of(part);
    let r = start.registers;
    r.sr1 & bits.registers.sr1 == r.sr1
        && r.sr2 & bits.registers.sr2 == r.sr2
        && r.sr3 & bits.registers.sr3 == r.sr3
        && start.locks & bits.locks == start.locks
}

// The face with the bits that its part lacks taken for 0.
// Stays a clause of each contract that no bit is set that the part lacks: as a ghost field of `Face` or `Registers` it
// would be asked of everyone who makes one, also of the faces that this function makes plain.
pub fn plain_face(face: Face) -> Face
    ensures value { result ≡ plain_face face }
    ensures plain { Plain result }
{
    let r = face.working;
    let bits = bits_of(face.part);
    let working = Registers {
        sr1: r.sr1 & bits.registers.sr1,
        sr2: r.sr2 & bits.registers.sr2,
        sr3: r.sr3 & bits.registers.sr3,
    };
    Face {
        working,
        locks: face.locks & bits.locks,
        ..face
    }
}

fn bare_order(part: Part, code: u8) -> Order
    ensures { result ≡ bare part code }
{
    match (part, code) {
        (Part::Jw | Part::Xa, 0x06) => Order::Arm(Arming::Stored),
        (Part::Jw, 0x50) => Order::Arm(Arming::Volatile),
        (Part::Jw | Part::Xa, 0x04) => Order::Arm(Arming::Disarmed),
        (Part::Jw, 0x7E) => Order::Change(Relock::LockAll),
        (Part::Jw, 0x98) => Order::Change(Relock::UnlockAll),
        _ => Order::Ignored,
    }
}

fn one_byte_order(part: Part, code: u8, a: u8) -> Order
    ensures { result ≡ with_byte part code a }
{
    match (part, code) {
        (Part::Jw | Part::Xa, 0x01) => Order::Write(RegisterWrite::First(a)),
        (Part::Jw, 0x31) => Order::Write(RegisterWrite::Second(a)),
        (Part::Jw, 0x11) => Order::Write(RegisterWrite::Third(a)),
        _ => Order::Ignored,
    }
}

fn two_byte_order(part: Part, code: u8, a: u8, b: u8) -> Order
    ensures { result ≡ with_two part code a b }
{
    match (part, code) {
        (Part::Jw, 0x01) => Order::Write(RegisterWrite::FirstTwo(a, b)),
        _ => Order::Ignored,
    }
}

fn address_order(part: Part, code: u8, address: u32) -> Order
    ensures { result ≡ at_address part code address }
{
    let Some(unit) = units::unit_at(address) else {
        return Order::Ignored;
    };
    match (part, code) {
        (Part::Jw, 0x36) => Order::Change(Relock::Lock(unit)),
        (Part::Jw, 0x39) => Order::Change(Relock::Unlock(unit)),
        _ => Order::Ignored,
    }
}

// What a command asks of a part.
// Stays a function for each count of bytes: one match on the part, the code and the bytes has no rule in the checker.
#[tactic(auto, unfolding(crate::specs::Effect::order_of))]
pub fn order_of(part: Part, command: Command) -> Order
    ensures { result ≡ order_of part command }
{
    match command.bytes {
        Bytes::Zero => bare_order(part, command.code),
        Bytes::One(a) => one_byte_order(part, command.code, a),
        Bytes::Two(a, b) => two_byte_order(part, command.code, a, b),
        Bytes::Three(a, b, c) => {
            address_order(part, command.code, u32::from_be_bytes([0, a, b, c]))
        }
    }
}

// Whether the registers are locked.
#[tactic(auto, unfolding(crate::specs::Effect::locked))]
pub fn is_locked(face: Face) -> bool
    ensures { result ≡ locked face }
{
    let r = face.working;
    r.sr2 % 2 == 1 || (r.sr1 / 128 == 1 && (r.sr2 / 2 % 2 == 0 && !face.wp))
}

// Whether WPS reads 1: the lock bits decide what is protected.
pub fn has_wps(face: Face) -> bool
    ensures { result ≡ (face.working.sr3 / 4 % 2 == 1) }
{
    let r = face.working;
    r.sr3 / 4 % 2 == 1
}

// Whether SUS reads 1.
#[tactic(auto, unfolding(crate::specs::Effect::suspended))]
pub fn is_suspended(face: Face) -> bool
    ensures { result ≡ suspended face }
{
    face.working.sr2 / 128 == 1
}

fn is_armed(arming: Arming) -> bool
    ensures { result ≡ armed arming }
{
    arming != Arming::Disarmed
}

// The arming that WEL shows.
pub fn is_armed_stored(arming: Arming) -> bool
    ensures { result ≡ armed_stored arming }
{
    arming == Arming::Stored
}

// Whether an order is taken.
// Stays a function of three values: only this one needs an order, a latch and a face together. A picture of a chip has
// face and latch in a reading, a simulated chip has them in its memory and its line.
pub fn accepts(order: Order, arming: Arming, face: Face) -> bool
    ensures { result ≡ accepts order arming face }
{
    match order {
        Order::Ignored => false,
        Order::Arm(_) => true,
        Order::Write(_) => is_armed(arming) && (!is_locked(face) && !is_suspended(face)),
        Order::Change(_) => is_armed_stored(arming),
    }
}

fn second_after(part: Part, b: u8, old: u8) -> u8
    ensures value { result ≡ second part b old }
    ensures clear { bit_and old (bits2 part) ≡ old → bit_and result (bits2 part) ≡ result }
{
    (b & (bits_of(part).registers.sr2 & 0x7B)) | (old & 0xB8)
}

// The registers once a write is in.
pub fn written(part: Part, write: RegisterWrite, r: Registers) -> Registers
    ensures value { result ≡ written part write r }
    ensures clear { Clear part r → Clear part result }
{
    let bits = bits_of(part).registers;
    match write {
        RegisterWrite::First(a) => Registers {
            sr1: a & bits.sr1,
            ..r
        },
        RegisterWrite::FirstTwo(a, b) => {
            Registers {
                sr1: a & bits.sr1,
                sr2: second_after(part, b, r.sr2),
                sr3: r.sr3,
            }
        }
        RegisterWrite::Second(b) => Registers {
            sr2: second_after(part, b, r.sr2),
            ..r
        },
        RegisterWrite::Third(b) => Registers {
            sr3: b & bits.sr3,
            ..r
        },
    }
}

// What of the registers lasts.
pub fn lasting(r: Registers) -> Registers
    ensures value { result ≡ lasting r }
    ensures clear { (p : Part) → Clear p r → Clear p result }
    ensures lasts { bit_and result.sr2 122 ≡ result.sr2 }
{
    Registers {
        sr2: r.sr2 & 0x7A,
        ..r
    }
}

fn one_at(unit: u8) -> u64
    requires { unit < 62 }
    ensures value { result ≡ 2 ^ unit }
    ensures bound { result < 2 ^ 62 }
{
    1 << unit
}

// The lock bits once changed.
fn relocked(change: Relock, locks: u64) -> u64
    ensures value { result ≡ relocked change locks }
    ensures bound { locks < 2 ^ 62 → result < 2 ^ 62 }
{
    match change {
        Relock::Lock(unit) if unit < units::UNITS => locks | one_at(unit),
        Relock::Unlock(unit) if unit < units::UNITS => locks & !one_at(unit),
        Relock::Lock(_) | Relock::Unlock(_) => locks,
        Relock::LockAll => ALL_LOCKS,
        Relock::UnlockAll => 0,
    }
}

fn locks_after(part: Part, change: Relock, locks: u64) -> u64
    ensures value { result ≡ locks_after part change locks }
    ensures plain { bit_and locks (lock_bits part) ≡ locks → bit_and result (lock_bits part) ≡ result }
{
    match part {
        Part::Jw => relocked(change, locks),
        Part::Xa | Part::Other(_) => locks,
    }
}

// What can be read once an order is taken.
pub fn face_after(order: Order, face: Face) -> Face
    ensures value { result ≡ face_after order face }
    ensures plain { Plain face → Plain result }
    ensures same { (result.part ≡ face.part) × (result.wp ≡ face.wp) }
{
    match order {
        Order::Ignored | Order::Arm(_) => face,
        Order::Write(write) => Face {
            working: written(face.part, write, face.working),
            ..face
        },
        Order::Change(change) => Face {
            locks: locks_after(face.part, change, face.locks),
            ..face
        },
    }
}

// The latch once an order is taken.
pub fn arming_after(order: Order, arming: Arming) -> Arming
    ensures { result ≡ arming_after order arming }
{
    match order {
        Order::Ignored => arming,
        Order::Arm(next) => next,
        Order::Write(_) | Order::Change(_) => Arming::Disarmed,
    }
}
