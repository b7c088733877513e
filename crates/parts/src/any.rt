// Either of the two parts, simulated.
ghost use Rattle.chip.specs.Start.{Startable, started};
ghost use Rattle.chip.specs.Step.{Known};
ghost use Rattle.parts.specs.Any.{any_state};
ghost use Rattle.parts.specs.declared.any.AnyPart.TheVariants.{Jw, Xa};
ghost use Rattle.std.specs.Prelude.{◌≡◌, MatchOption};
ghost use Rattle.std.proofs.Common.{rules};

use crate::jw::W25q16jw;
use crate::xa::W25x16a;
use chip::interface::Chip;
use chip::model::{Answer, Exchange, Part, Start};

// A simulated chip of the part that its case names.
// Stays an enum: a `dyn` value would need the heap, and the parts are just these two.
#[derive(Clone, Copy)]
pub enum AnyPart {
    Jw(W25q16jw),
    Xa(W25x16a),
}

impl AnyPart {
    // A chip of this part that starts so. Refused where the part is not known, and as the part refuses.
    pub fn new(part: Part, start: Start) -> Option<AnyPart>
        ensures { MatchOption result (Known part × Startable part start → ⊥) (λ x. (Known part × Startable part start) × (any_state x ≡ started part start)) }
    {
        match part {
            Part::Jw => Some(AnyPart::Jw(W25q16jw::new(start)?)),
            Part::Xa => Some(AnyPart::Xa(W25x16a::new(start)?)),
            Part::Other(_) => None,
        }
    }
}

impl Chip for AnyPart {
    ghost state = { any_state };

    ghost sound = { elim [ Jw x ↦ Prim.search rules | Xa x ↦ Prim.search rules ] };

    fn exchange(&mut self, e: Exchange) -> Answer {
        match self {
            AnyPart::Jw(chip) => chip.exchange(e),
            AnyPart::Xa(chip) => chip.exchange(e),
        }
    }

    fn key(&mut self, high: bool) {
        match self {
            AnyPart::Jw(chip) => chip.key(high),
            AnyPart::Xa(chip) => chip.key(high),
        }
    }

    fn level(&self) -> bool {
        match self {
            AnyPart::Jw(chip) => chip.level(),
            AnyPart::Xa(chip) => chip.level(),
        }
    }

    fn power(&mut self) {
        match self {
            AnyPart::Jw(chip) => chip.power(),
            AnyPart::Xa(chip) => chip.power(),
        }
    }
}
