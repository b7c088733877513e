// What the tests of wishes share.
use chip::model::{Bytes, Command};
use refusals::RunFault;
use units::Range;

// A place before a command stands in it.
pub(crate) const BLANK: Command = Command {
    code: 0,
    bytes: Bytes::Zero,
};

// Block 31.
pub(crate) const TOP: Range = Range {
    first: 0x1F0000,
    last: 0x1FFFFF,
};

// How a wish ends: the count of commands sent, or the number of the refusal and the count of commands carried.
// Stays a number in `Err`: that is what a sheet tells, and what the tests pin.
pub(crate) fn ended(answer: Result<usize, RunFault>) -> Result<usize, (u8, usize)> {
    answer.map_err(|fault| match fault {
        RunFault::Cable { fault, carried } => (fault.number(), carried),
        _ => (fault.number(), 0),
    })
}
