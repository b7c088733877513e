// The plain values that describe a chip, a command and an answer.

// Which part a chip is, by the part number that it answers.
#[derive(Clone, Copy, Debug, PartialEq, Eq)]
pub enum Part {
    // W25Q16JW, EF8015h
    Jw,
    // W25X16A, EF3015h
    Xa,
    // any other part number
    Other(u32),
}

// The status registers, SR1 without WEL and BUSY, which stand in `State`'s arming and busy.
#[derive(Clone, Copy, Debug, PartialEq, Eq)]
pub struct Registers {
    pub sr1: u8,
    pub sr2: u8,
    pub sr3: u8,
}

// The bits that a part has; the others read 0.
#[derive(Clone, Copy, Debug, PartialEq, Eq)]
pub struct Bits {
    // without WEL and BUSY
    pub registers: Registers,
    pub locks: u64,
}

// What a chip starts with.
#[derive(Clone, Copy, Debug, PartialEq, Eq)]
pub struct Start {
    pub registers: Registers,
    pub locks: u64,
    pub wp: bool,
    pub slow: u16,
    pub carry: u32,
}

// All of a chip that can be read, but for WEL and BUSY: two chips read alike when their faces are the same.
#[derive(Clone, Copy, Debug, PartialEq, Eq)]
pub struct Face {
    pub part: Part,
    // the working registers, by which the chip acts
    pub working: Registers,
    // the lock bit of each unit, unit u at bit u
    pub locks: u64,
    // the level of /WP, true when it is high
    pub wp: bool,
}

// The write enable latch, and which write it enables.
#[derive(Clone, Copy, Debug, PartialEq, Eq)]
pub enum Arming {
    Disarmed,
    // a write of the working registers alone; WEL does not show it
    Volatile,
    // a write of the stored registers too, or of lock bits; shown as WEL
    Stored,
}

// A chip's whole state, with the cable to it.
#[derive(Clone, Copy, Debug, PartialEq, Eq)]
pub struct State {
    pub face: Face,
    // the registers that power brings back
    pub stored: Registers,
    pub arming: Arming,
    // how many further reads of SR1 show BUSY
    pub busy: u16,
    // what a stored write sets busy to
    pub slow: u16,
    // how many exchanges the cable will still carry
    pub carry: u32,
}

// The bytes that follow a command's code.
#[derive(Clone, Copy, Debug, PartialEq, Eq)]
pub enum Bytes {
    Zero,
    One(u8),
    Two(u8, u8),
    Three(u8, u8, u8),
}

#[derive(Clone, Copy, Debug, PartialEq, Eq)]
pub struct Command {
    pub code: u8,
    pub bytes: Bytes,
}

#[derive(Clone, Copy, Debug, PartialEq, Eq)]
pub enum Question {
    Status1,
    Status2,
    Status3,
    PartNumber,
    // the lock bit of a unit
    Lock(u8),
}

// One exchange over the cable.
#[derive(Clone, Copy, Debug, PartialEq, Eq)]
pub enum Exchange {
    Ask(Question),
    Send(Command),
}

// What comes back from an exchange.
// Stays an enum of three: a `Result` of an `Option` would not say what an answer without a value means.
#[derive(Clone, Copy, Debug, PartialEq, Eq)]
pub enum Answer {
    // the cable carries nothing any more
    Down,
    // a command reached the chip, which took or ignored it
    Carried,
    // what was asked for
    Value(u32),
}

// The registers that a register write brings, with their bytes.
#[derive(Clone, Copy, Debug, PartialEq, Eq)]
pub enum RegisterWrite {
    First(u8),
    FirstTwo(u8, u8),
    Second(u8),
    Third(u8),
}

// A change of lock bits.
#[derive(Clone, Copy, Debug, PartialEq, Eq)]
pub enum Relock {
    Lock(u8),
    Unlock(u8),
    LockAll,
    UnlockAll,
}

// What a command asks of a part.
#[derive(Clone, Copy, Debug, PartialEq, Eq)]
pub enum Order {
    // nothing: the part has no such command
    Ignored,
    Arm(Arming),
    Write(RegisterWrite),
    Change(Relock),
}
