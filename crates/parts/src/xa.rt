// A simulated W25X16A, and how what it holds changes.
ghost use Rattle.chip.specs.Step.{obeyed};
ghost use Rattle.chip.specs.declared.model.Bytes.TheVariants.{Zero, One};
ghost use Rattle.chip.specs.declared.model.Part.TheVariants.{Xa};
ghost use Rattle.parts.specs.Holding.{over, xa_registers, xa_arming, xa_held};
ghost use Rattle.std.specs.Prelude.{◌≡◌};
ghost use Rattle.std.proofs.Common.{rules};

use crate::held::Held;
use crate::line::Line;
use crate::memory::Memory;
use crate::simulated::Simulated;
use crate::xa_memory::XaMemory;
use chip::effect;
use chip::model::{Arming, Bytes, Command, Part, Registers, Start};

pub type W25x16a = Simulated<XaMemory>;

impl XaMemory {
    // A register write that comes while it is not busy: SRP with /WP low locks the register.
    #[tactic(auto, using(chip::proofs::Ands::inside), unfolding(chip::specs::Step::obeyed, chip::specs::Effect::order_of, chip::specs::Effect::locked, chip::specs::Effect::suspended))]
    fn write(&mut self, byte: u8, line: &mut Line)
        ensures { over (xa_held self.new) line.new ≡ obeyed (record { code = 1; bytes = One byte }) (over (xa_held self.old) line.old) }
    {
        if !self.armed || (self.sr1 / 128 == 1 && !line.wp) {
            return;
        }
        self.sr1 = byte & 0xBC;
        self.armed = false;
        line.busy = line.slow;
    }

    // A command without bytes that comes while it is not busy.
    #[tactic(auto, unfolding(chip::specs::Step::obeyed, chip::specs::Effect::order_of))]
    fn arm(&mut self, code: u8)
        ensures { (l : Line) → over (xa_held self.new) l ≡ obeyed (record { code = code; bytes = Zero }) (over (xa_held self.old) l) }
    {
        match code {
            0x06 => self.armed = true,
            0x04 => self.armed = false,
            _ => {}
        }
    }
}

impl Memory for XaMemory {
    ghost part = { Xa };

    ghost held = { xa_held };

    ghost sound = { Prim.search rules };

    fn started(start: Start) -> Option<XaMemory> {
        if !effect::fits(Part::Xa, start) {
            return None;
        }
        Some(XaMemory {
            sr1: start.registers.sr1,
            armed: false,
        })
    }

    fn held(&self) -> Held {
        let registers = Registers {
            sr1: self.sr1,
            sr2: 0,
            sr3: 0,
        };
        let arming = if self.armed {
            Arming::Stored
        } else {
            Arming::Disarmed
        };
        Held {
            part: Part::Xa,
            working: registers,
            stored: registers,
            locks: 0,
            arming,
        }
    }

    #[tactic(auto, unfolding(chip::specs::Step::obeyed, chip::specs::Effect::order_of))]
    fn obey(&mut self, command: Command, line: &mut Line) {
        match command.bytes {
            Bytes::Zero => self.arm(command.code),
            Bytes::One(byte) if command.code == 0x01 => self.write(byte, line),
            Bytes::One(_) | Bytes::Two(_, _) | Bytes::Three(_, _, _) => {}
        }
    }

    fn power(&mut self) {
        self.armed = false;
    }
}
