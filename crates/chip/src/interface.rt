// The interface behind which a chip stands.
ghost use Rattle.chip.specs.Step.{Sound, Exchanged, Keyed, Powered};
ghost use Rattle.chip.specs.declared.model.State.{State};
ghost use Rattle.std.specs.Prelude.{◌≡◌};

use crate::model::{Answer, Exchange};

// A chip at the end of its cable. Its state is what it shows of itself; each call says what becomes of that.
pub trait Chip {
    ghost state: { Self → State };

    // One question or command over the cable.
    fn exchange(&mut self, e: Exchange) -> Answer
        ensures { Exchanged e (state self.old) result (state self.new) };

    // Sets the level of /WP.
    fn key(&mut self, high: bool)
        ensures { Keyed high (state self.old) (state self.new) };

    // The level of /WP.
    fn level(&self) -> bool
        ensures { result ≡ (state self.now).face.wp };

    // Power off and on.
    fn power(&mut self)
        ensures { Powered (state self.old) (state self.new) };

    ghost sound: { (x : Self) → Sound (state x) };
}
