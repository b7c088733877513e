// The commands of a plan, each with the arming before it.
ghost use Rattle.plan.specs.Plan.{arm, first_byte, second_byte, third_byte, at_unit, sweep};
ghost use Rattle.plan.specs.Sinks.{Writes};
ghost use Rattle.units.specs.Units.{has};
ghost use Rattle.std.specs.Prelude.{◌≡◌, ◌<◌, [], ◌∷◌, ◌==◌, if◌then◌else◌};

use crate::sink::Sink;
use crate::wish::Term;
use chip::model::{Bytes, Command, Face};
use refusals::RunFault;
use units::UNITS;

// 50h for now, 06h for what is stored too.
fn arm(term: Term) -> Command
    ensures { result ≡ arm term }
{
    let code = match term {
        Term::Now => 0x50,
        Term::Kept => 0x06,
    };
    Command {
        code,
        bytes: Bytes::Zero,
    }
}

// A command after its arming.
pub(crate) fn armed<S: Sink>(to: &mut S, term: Term, command: Command) -> Result<(), RunFault>
    ensures { Writes S.room S.takes (arm term ∷ (command ∷ [])) result to.old to.new }
{
    to.put(arm(term))?;
    to.put(command)
}

pub(crate) fn first_byte(face: Face, code: u8) -> u8
    ensures { result ≡ first_byte face code }
{
    (face.working.sr1 & 0x80) + code % 32 * 4
}

pub(crate) fn second_byte(face: Face, code: u8) -> u8
    requires { code < 64 }
    ensures { result ≡ second_byte face code }
{
    (face.working.sr2 & 0x3B) + code / 32 * 64
}

pub(crate) fn third_byte(face: Face, wps: bool) -> u8
    ensures { result ≡ third_byte face (if wps then 1 else 0) }
{
    (face.working.sr3 & 0xE0) + u8::from(wps) * 4
}

// A command at the unit's first address. Lock bits are stored, so 06h is before it on either part.
fn at_unit<S: Sink>(to: &mut S, code: u8, unit: u8) -> Result<(), RunFault>
    requires { unit < 62 }
    ensures { Writes S.room S.takes (at_unit code unit) result to.old to.new }
{
    let Some(address) = units::first_address(unit) else {
        // the callers' units are below 62
        unreachable()
    };
    let [_, high, middle, low] = address.to_be_bytes();
    let bytes = Bytes::Three(high, middle, low);
    armed(to, Term::Kept, Command { code, bytes })
}

// A command at each unit of a set, rising.
pub(crate) fn sweep<S: Sink>(to: &mut S, set: u64, code: u8) -> Result<(), RunFault>
    ensures { Writes S.room S.takes (sweep (λ u. has «set» u == 1) code 62) result to.old to.new }
{
    for unit in 0..UNITS {
        if (set >> unit) % 2 == 1 {
            at_unit(to, code, unit)?;
        }
    }
    Ok(())
}
