// What has been read of a chip, as plain values.
use chip::model::{Arming, Face};

#[derive(Clone, Copy, Debug, PartialEq, Eq)]
pub struct Reading {
    pub face: Face,
    // what is believed of the latch: WEL shows the stored arming and no other
    pub arming: Arming,
    // BUSY, as SR1 was last read
    pub busy: bool,
}
