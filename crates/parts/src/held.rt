// What a chip holds, apart from its line.
use chip::model::{Arming, Part, Registers};

#[derive(Clone, Copy)]
pub(crate) struct Held {
    pub(crate) part: Part,
    // the working registers, by which the chip acts
    pub(crate) working: Registers,
    // the registers that power brings back
    pub(crate) stored: Registers,
    pub(crate) locks: u64,
    pub(crate) arming: Arming,
}
