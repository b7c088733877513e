// What a part holds, and how a command and power change it.
ghost use Rattle.chip.specs.Effect.{Clear, lock_bits};
ghost use Rattle.chip.specs.Step.{Sound, obeyed};
ghost use Rattle.chip.specs.declared.model.Part.{Part};
ghost use Rattle.parts.specs.Holding.{over, first, repowered};
ghost use Rattle.parts.specs.declared.held.Held.{Held};
ghost use Rattle.parts.specs.declared.line.Line.{Line};
ghost use Rattle.std.specs.Prelude.{◌≡◌, MatchOption, bit_and};

use crate::held::Held;
use crate::line::Line;
use chip::model::{Command, Start};

// The memory of one part, which has places for what that part has.
pub(crate) trait Memory: Copy {
    ghost part: { Part };

    ghost held: { Self → Held };

    // The memory of a chip that starts so. Refused where a bit is set that must read 0.
    fn started(start: Start) -> Option<Self>
        ensures { MatchOption result (Clear part start.registers × (bit_and start.locks (lock_bits part) ≡ start.locks) → ⊥) (λ x. (Clear part start.registers × (bit_and start.locks (lock_bits part) ≡ start.locks)) × (held x ≡ first part start)) };

    // What it holds, the same for each part.
    fn held(&self) -> Held
        ensures { result ≡ held self.now };

    // A command that comes while the chip is not busy; it may set how long the line shows BUSY.
    fn obey(&mut self, command: Command, line: &mut Line)
        ensures { over (held self.new) line.new ≡ obeyed command (over (held self.old) line.old) };

    // Power off and on.
    fn power(&mut self)
        ensures { held self.new ≡ repowered (held self.old) };

    ghost sound: { (x : Self) → (l : Line) → Sound (over (held x) l) };
}
