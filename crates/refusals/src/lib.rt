// Every answer that says no, with its number and with what goes along.
//
// A fault is told by the layer that met it, and a higher layer carries it whole: the cable's fault goes into the run's
// with the count of commands carried before it, and the run's into the sheet's with the place in the line.

#![tactic(auto)]

ghost use Rattle.refusals.specs.Numbers.{cable_number, run_number, sheet_number, sheet_place};
ghost use Rattle.refusals.specs.declared.RunFault.TheVariants.{Cable};
ghost use Rattle.refusals.specs.declared.SheetFault.TheVariants.{Run};
ghost use Rattle.std.specs.Prelude.{◌≡◌};

// What the cable may answer in place of an answer.
#[derive(Clone, Copy, Debug, PartialEq, Eq)]
pub enum CableFault {
    // The cable carries nothing any more.
    Down,
    // BUSY still showed on the last read of SR1 that a wait allows.
    Busy,
}

// What a call on a session may refuse, or fail with.
#[derive(Clone, Copy, Debug, PartialEq, Eq)]
pub enum RunFault {
    // The code is none of those that can be judged.
    Code,
    // The range at this place, counted from 0, ends below its start or passes the array's end.
    Beyond { at: usize },
    // The range at this place, counted from 0, cuts a unit.
    Cut { at: usize },
    // The duty bears another session's number.
    OtherSession,
    // The session has no picture.
    Blind,
    // A lift is out.
    LiftOut,
    // SUS reads 1.
    Suspended,
    // The set has no code, and only a code would do.
    NoCode,
    // SRL locks the registers.
    RegisterLock,
    // /WP locks the registers.
    PinLock,
    // The cable's fault, after so many commands were carried.
    Cable { fault: CableFault, carried: usize },
    // The part number is none that is known.
    UnknownPart,
    // The places are too few.
    Full,
}

// What a line of a sheet may be refused for.
#[derive(Clone, Copy, Debug, PartialEq, Eq)]
pub enum SheetFault {
    // The line is too long, or has a byte that no line may have: where.
    Bytes { place: usize },
    // The first word is none of the sheet's.
    Word,
    // There are too few fields or too many: the line's length.
    Count { length: usize },
    // A field is written wrongly: where.
    Field { place: usize },
    // There is no chip yet.
    NoChip,
    // A call was refused, or failed: how, and the place in the line that is told.
    Run { fault: RunFault, place: usize },
    // The answers' space, or another of the caller's, is too small.
    Room,
}

// A cable's fault beside the count of commands carried before it.
#[derive(Clone, Copy, Debug, PartialEq, Eq)]
pub struct Sent {
    pub fault: CableFault,
    pub carried: usize,
}

// A run's fault beside the place in the line that is told.
#[derive(Clone, Copy, Debug, PartialEq, Eq)]
pub struct Placed {
    pub fault: RunFault,
    pub place: usize,
}

// What fails before any command was sent.
impl From<CableFault> for RunFault {
    ghost from_gives = { λ f r. r ≡ Cable f 0 };

    fn from(fault: CableFault) -> RunFault {
        RunFault::Cable { fault, carried: 0 }
    }
}

impl From<Sent> for RunFault {
    ghost from_gives = { λ s r. r ≡ Cable s.fault s.carried };

    fn from(sent: Sent) -> RunFault {
        RunFault::Cable {
            fault: sent.fault,
            carried: sent.carried,
        }
    }
}

impl From<Placed> for SheetFault {
    ghost from_gives = { λ p r. r ≡ Run p.fault p.place };

    fn from(placed: Placed) -> SheetFault {
        SheetFault::Run {
            fault: placed.fault,
            place: placed.place,
        }
    }
}

// Stays a method, here and for the other two: the numbers are the sheet's, and `u8::from(fault)` would not say of what.
impl CableFault {
    // The number by which this fault is told.
    pub fn number(self) -> u8
        ensures { result ≡ cable_number self }
    {
        match self {
            CableFault::Down => 14,
            CableFault::Busy => 15,
        }
    }
}

impl RunFault {
    // The number by which this fault is told.
    pub fn number(self) -> u8
        ensures { result ≡ run_number self }
    {
        match self {
            RunFault::Code => 4,
            RunFault::Beyond { at: _ } => 5,
            RunFault::Cut { at: _ } => 6,
            RunFault::OtherSession => 7,
            RunFault::Blind => 8,
            RunFault::LiftOut => 9,
            RunFault::Suspended => 10,
            RunFault::NoCode => 11,
            RunFault::RegisterLock => 12,
            RunFault::PinLock => 13,
            RunFault::Cable { fault, carried: _ } => fault.number(),
            RunFault::UnknownPart => 16,
            RunFault::Full => 17,
        }
    }
}

impl SheetFault {
    // The number by which this fault is told.
    pub fn number(self) -> u8
        ensures { result ≡ sheet_number self }
    {
        match self {
            SheetFault::Bytes { place: _ } => 1,
            SheetFault::Word => 2,
            SheetFault::Count { length: _ } => 3,
            SheetFault::Field { place: _ } => 4,
            SheetFault::NoChip => 8,
            SheetFault::Run { fault, place: _ } => fault.number(),
            SheetFault::Room => 17,
        }
    }

    // The place that is told with the number.
    pub fn place(self) -> usize
        ensures { result ≡ sheet_place self }
    {
        match self {
            SheetFault::Bytes { place } => place,
            SheetFault::Word => 0,
            SheetFault::Count { length } => length,
            SheetFault::Field { place } => place,
            SheetFault::NoChip => 0,
            SheetFault::Run { fault: _, place } => place,
            SheetFault::Room => 0,
        }
    }
}
