// A simulated W25Q16JW, and how what it holds changes.
ghost use Rattle.chip.specs.Step.{taken};
ghost use Rattle.chip.specs.declared.model.Part.TheVariants.{Jw};
ghost use Rattle.parts.specs.Holding.{over, jw_held};
ghost use Rattle.std.specs.Prelude.{◌≡◌};
ghost use Rattle.std.proofs.Common.{rules};

use crate::held::Held;
use crate::jw_memory::JwMemory;
use crate::line::Line;
use crate::memory::Memory;
use crate::simulated::Simulated;
use chip::effect;
use chip::model::{Arming, Command, Face, Order, Part, Start};

pub type W25q16jw = Simulated<JwMemory>;

impl JwMemory {
    fn face(&self, wp: bool) -> Face
        ensures { result ≡ record { part = Jw; working = self.now.working; locks = self.now.locks; wp = wp } }
    {
        Face {
            part: Part::Jw,
            working: self.working,
            locks: self.locks,
            wp,
        }
    }

    // Takes an order: a write under the stored arming goes into the stored registers too, and takes its time.
    fn take(&mut self, order: Order, line: &mut Line)
        ensures { over (jw_held self.new) line.new ≡ taken order (over (jw_held self.old) line.old) }
    {
        let face = effect::face_after(order, self.face(line.wp));
        if let Order::Write(write) = order
            && effect::is_armed_stored(self.arming)
        {
            self.stored = effect::lasting(effect::written(Part::Jw, write, self.stored));
            line.busy = line.slow;
        }
        self.working = face.working;
        self.locks = face.locks;
        self.arming = effect::arming_after(order, self.arming);
    }
}

impl Memory for JwMemory {
    ghost part = { Jw };

    ghost held = { jw_held };

    ghost sound = { Prim.search rules };

    fn started(start: Start) -> Option<JwMemory> {
        if !effect::fits(Part::Jw, start) {
            return None;
        }
        Some(JwMemory {
            working: start.registers,
            stored: effect::lasting(start.registers),
            locks: start.locks,
            arming: Arming::Disarmed,
        })
    }

    fn held(&self) -> Held {
        Held {
            part: Part::Jw,
            working: self.working,
            stored: self.stored,
            locks: self.locks,
            arming: self.arming,
        }
    }

    #[tactic(auto, unfolding(chip::specs::Step::obeyed))]
    fn obey(&mut self, command: Command, line: &mut Line) {
        let order = effect::order_of(Part::Jw, command);
        if effect::accepts(order, self.arming, self.face(line.wp)) {
            self.take(order, line);
        }
    }

    fn power(&mut self) {
        self.working = self.stored;
        self.locks = effect::ALL_LOCKS;
        self.arming = Arming::Disarmed;
    }
}
