// Sending commands to a chip, with the picture following.
ghost use Rattle.session.specs.Send.{stores, waiting, one_sent, sends, sending};
ghost use Rattle.session.specs.World.{world, Runs};
ghost use Rattle.std.specs.Prelude.{◌≡◌, ◌≤◌, IfErr};

use crate::asking::wait;
use chip::effect;
use chip::interface::Chip;
use chip::model::{Answer, Arming, Command, Exchange, Order};
use picture::picture::Picture;
use refusals::{CableFault, Sent};

// Whether a command is a register write that the chip stores, and so takes its time for.
fn stores(order: Order, arming: Arming) -> bool
    ensures { result ≡ stores order arming }
{
    matches!(order, Order::Write(_)) && effect::is_armed_stored(arming)
}

// A chip, and the picture that follows what is sent to it.
#[derive(Drop)]
pub(crate) struct Link<'a, C> {
    pub(crate) chip: &'a mut C,
    pub(crate) picture: Picture,
}

impl<C: Chip> Link<'_, C> {
    // Waits until the chip is not busy, and notes in the picture what was seen of that.
    fn wait(&mut self) -> Result<(), CableFault>
        ensures same_chip { self.new.chip.ghost_name ≡ self.old.chip.ghost_name }
        ensures run { waiting (world C.Chip.state self.old) ≡ (result, world C.Chip.state self.new) }
    {
        match wait(self.chip) {
            Ok(_) => {
                self.picture.show_busy(false);
                Ok(())
            }
            Err(stop) => {
                if stop.busy {
                    self.picture.show_busy(true);
                }
                Err(stop.fault)
            }
        }
    }

    // One command, and the wait that it may want. A fault tells whether the command was carried.
    fn send_one(&mut self, command: Command) -> Result<(), Sent>
        ensures run { Runs C.Chip.state (one_sent command) self.old result self.new }
        ensures few { IfErr result (λ s. s.carried ≤ 1) }
    {
        if let Answer::Down = self.chip.exchange(Exchange::Send(command)) {
            return Err(Sent {
                fault: CableFault::Down,
                carried: 0,
            });
        }
        let known = self.picture.reading();
        let awaited = stores(effect::order_of(known.face.part, command), known.arming);
        self.picture.follow(command);
        if awaited {
            self.wait().map_err(|fault| Sent { fault, carried: 1 })?;
        }
        Ok(())
    }

    // The commands one after the other.
    fn send_all(&mut self, commands: &[Command]) -> Result<(), Sent>
        ensures { Runs C.Chip.state (sends commands.now 0) self.old result self.new }
    {
        for (i, command) in commands.iter().enumerate() {
            self.send_one(*command).map_err(|stop| Sent {
                carried: i + stop.carried,
                ..stop
            })?;
        }
        Ok(())
    }

    // A plan: a wait first, even where there is no command.
    pub(crate) fn send(&mut self, commands: &[Command]) -> Result<(), Sent>
        ensures { Runs C.Chip.state (sending commands.now) self.old result self.new }
    {
        self.wait().map_err(|fault| Sent { fault, carried: 0 })?;
        self.send_all(commands)
    }
}
