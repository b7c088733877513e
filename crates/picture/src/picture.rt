// The picture of a chip.
ghost use Rattle.chip.specs.Effect.{Plain};
ghost use Rattle.std.specs.Prelude.{◌≡◌, ◌<◌, ◌≤◌, MatchOption};
ghost use Rattle.picture.specs.Protection.{protected, obeys, Judged};
ghost use Rattle.picture.specs.Shown.{masked, rekeyed, status_shown, followed, busy_shown};
ghost use Rattle.units.specs.Units.{array_size};

use crate::array::ArrayCommand;
use crate::protection;
use crate::reading::Reading;
use chip::effect;
use chip::model::Command;
use units::ARRAY_SIZE;

// A reading in which no bit is set that must read 0.
#[derive(Clone, Copy, Debug, PartialEq, Eq)]
pub struct Picture {
    reading: Reading,
    ghost plain: { Plain reading.face },
}

impl Picture {
    // The picture of what was read; a bit that the part lacks is taken for 0.
    pub fn masked(reading: Reading) -> Picture
        ensures { result.reading ≡ masked reading }
    {
        let face = effect::plain_face(reading.face);
        Picture {
            reading: Reading { face, ..reading },
        }
    }

    pub fn reading(&self) -> Reading
        ensures { result ≡ self.now.reading }
    {
        // a copy: the picture stays as it is
        self.reading
    }

    // SR1 as the picture has it, with WEL and BUSY.
    pub fn status1(&self) -> u8
        ensures { result ≡ status_shown self.now.reading }
    {
        let sr1 = self.reading.face.working.sr1 & 0xFC;
        let wel = u8::from(effect::is_armed_stored(self.reading.arming));
        sr1 + 2 * wel + u8::from(self.reading.busy)
    }

    // The protected units.
    pub fn protected(&self) -> u64
        ensures { result ≡ protected self.now.reading.face }
    {
        protection::protected(self.reading.face)
    }

    // Whether the chip obeys a command that changes the array, at an address; `None` beyond the array.
    pub fn obeys(&self, command: ArrayCommand, address: u32) -> Option<bool>
        ensures { MatchOption result (array_size ≤ address) (λ b. (address < array_size) × ((b ≡ obeys self.now.reading.face command address) × Judged b self.now.reading.face command address)) }
    {
        if address >= ARRAY_SIZE {
            return None;
        }
        let Some(set) = units::touched(command.region(address)) else {
            // the region lies in the array
            unreachable()
        };
        Some(command.offered_by(self.reading.face.part) && set & self.protected() == 0)
    }

    // A command was carried to the chip.
    #[tactic(auto, unfolding(crate::specs::Shown::followed))]
    pub fn follow(&mut self, command: Command)
        ensures { self.new.reading ≡ followed command self.old.reading }
    {
        let face = self.reading.face;
        let arming = self.reading.arming;
        let order = effect::order_of(face.part, command);
        if effect::accepts(order, arming, face) {
            self.reading.face = effect::face_after(order, face);
            self.reading.arming = effect::arming_after(order, arming);
        }
    }

    // SR1 was read, with BUSY so.
    pub fn show_busy(&mut self, busy: bool)
        ensures { self.new.reading ≡ busy_shown busy self.old.reading }
    {
        self.reading.busy = busy;
    }

    // /WP is set.
    pub fn key(&mut self, high: bool)
        ensures { self.new.reading ≡ rekeyed high self.old.reading }
    {
        self.reading.face.wp = high;
    }
}
