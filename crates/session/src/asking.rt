// Questions to a chip.
ghost use Rattle.chip.specs.Step.{Owes, asked, Sound};
ghost use Rattle.chip.specs.declared.model.Exchange.TheVariants.{Ask};
ghost use Rattle.chip.specs.declared.model.Question.TheVariants.{Status1};
ghost use Rattle.chip.specs.declared.model.Part.TheVariants.{Jw};
ghost use Rattle.session.specs.Asked.{Asks, Finds, Waits};
ghost use Rattle.std.specs.Prelude.{◌≡◌, ◌<◌};

use chip::interface::Chip;
use chip::model::{Answer, Exchange, Question};
use refusals::CableFault;

// How often SR1 is read, at the most, until it shows BUSY 0.
const READS: u8 = 100;

// What one question is answered, of those that the part owes an answer, while it is not busy or at SR1.
pub(crate) fn ask<C: Chip>(chip: &mut C, question: Question) -> Result<u32, CableFault>
    requires { Owes (C.Chip.state chip.old).face.part (Ask question) }
    ensures { Asks question (C.Chip.state chip.old) result (C.Chip.state chip.new) }
{
    match chip.exchange(Exchange::Ask(question)) {
        Answer::Value(v) => Ok(v),
        Answer::Down => Err(CableFault::Down),
        // no question is answered so
        Answer::Carried => unreachable(),
    }
}

// Why a wait failed, and whether SR1 was read before it did: each read showed BUSY.
// Stays a flag beside the fault: the picture takes it as it is, whichever fault it comes with.
#[derive(Clone, Copy)]
pub(crate) struct WaitFault {
    pub(crate) fault: CableFault,
    pub(crate) busy: bool,
}

// Reads SR1 until it shows BUSY 0, and answers it.
pub(crate) fn wait<C: Chip>(chip: &mut C) -> Result<u32, WaitFault>
    ensures { Waits (C.Chip.state chip.old) result (C.Chip.state chip.new) }
{
    for reads in 0..READS {
        let sr1 = ask(chip, Question::Status1).map_err(|fault| WaitFault {
            fault,
            busy: reads > 0,
        })?;
        if sr1 % 2 == 0 {
            return Ok(sr1);
        }
    }
    Err(WaitFault {
        fault: CableFault::Busy,
        busy: true,
    })
}

// Reads the lock bits of all units.
pub(crate) fn read_locks<C: Chip>(chip: &mut C) -> Result<u64, CableFault>
    requires { ((C.Chip.state chip.old).face.part ≡ Jw) × ((C.Chip.state chip.old).busy ≡ 0) }
    ensures { Finds 62 (C.Chip.state chip.old).face.locks (C.Chip.state chip.old) result (C.Chip.state chip.new) }
{
    let mut locks = 0;
    for unit in 0..62 {
        let bit = ask(chip, Question::Lock(unit))?;
        locks += (bit as u64) << unit;
    }
    Ok(locks)
}
