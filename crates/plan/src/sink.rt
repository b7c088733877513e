// Where the commands of a plan go: into places, or into bare room, which only counts them.
ghost use Rattle.plan.specs.Sinks.{SinkLaws, Writes, places_left, TakesRoom};
ghost use Rattle.plan.specs.Takers.{places_laws, room_laws};
ghost use Rattle.places.specs.Pushed.{Adds};
ghost use Rattle.chip.specs.declared.model.Command.{Command};
ghost use Rattle.std.specs.Prelude.{◌≡◌, ℕ, List, [], ◌∷◌};

use chip::model::Command;
use places::Places;
use refusals::RunFault;

pub(crate) trait Sink {
    // How many more commands there is room for.
    ghost room: { Self → ℕ };

    // These commands were taken, one after the other.
    ghost takes: { List Command → Self → Self → Type 0 };

    // Takes a command, or refuses it for want of room.
    fn put(&mut self, command: Command) -> Result<(), RunFault>
        ensures { Writes room takes (command ∷ []) result self.old self.new };

    ghost laws: { SinkLaws room takes };
}

impl Sink for Places<'_, Command> {
    ghost room = { places_left };

    ghost takes = { Adds };

    ghost laws = { places_laws };

    fn put(&mut self, command: Command) -> Result<(), RunFault> {
        self.push(command)
    }
}

// Room for so many commands. It keeps none of those that it takes.
#[derive(Drop)]
pub(crate) struct Room {
    pub(crate) left: usize,
}

impl Sink for Room {
    ghost room = { λ r. r.left };

    ghost takes = { TakesRoom };

    ghost laws = { room_laws };

    fn put(&mut self, command: Command) -> Result<(), RunFault> {
        if self.left == 0 {
            return Err(RunFault::Full);
        }
        self.left -= 1;
        Ok(())
    }
}
