// The choice of a route.
ghost use Rattle.plan.specs.Plan.{smallest, codes_of, by_lock_bits, locked_for_good, lock_fault, by_code, by_locks, by_either, chosen};
ghost use Rattle.picture.specs.Protection.{protected};
ghost use Rattle.chip.specs.Effect.{locked};
ghost use Rattle.std.specs.Prelude.{◌≡◌, if◌then◌else◌, Ok, Err};

use crate::wish::{Route, Term, Wish};
use chip::effect;
use chip::model::{Face, Part};
use refusals::RunFault;

// The codes of the part.
fn codes_of(part: Part) -> u8
    ensures { result ≡ codes_of part }
{
    match part {
        Part::Jw => 64,
        Part::Xa => 16,
        Part::Other(_) => 0,
    }
}

// Why locked registers cannot be written.
#[tactic(auto, unfolding(crate::specs::Plan::locked_for_good))]
fn lock_fault(face: Face) -> RunFault
    ensures { result ≡ lock_fault face }
{
    if face.working.sr2 % 2 == 1 {
        RunFault::RegisterLock
    } else {
        RunFault::PinLock
    }
}

// Refused where the registers are locked.
fn unlocked(face: Face) -> Result<(), RunFault>
    ensures { result ≡ (if locked face then Err (lock_fault face) else Ok tt) }
{
    if effect::is_locked(face) {
        Err(lock_fault(face))
    } else {
        Ok(())
    }
}

fn by_code(code: Option<u8>, face: Face) -> Result<Route, RunFault>
    ensures { result ≡ by_code code face }
{
    let code = code.ok_or(RunFault::NoCode)?;
    unlocked(face)?;
    Ok(Route::Settings(code))
}

#[tactic(auto, unfolding(crate::specs::Plan::by_lock_bits))]
fn by_locks(face: Face) -> Result<Route, RunFault>
    ensures { result ≡ by_locks face }
{
    if !effect::has_wps(face) {
        unlocked(face)?;
    }
    Ok(Route::Locks)
}

fn by_either(code: Option<u8>, face: Face) -> Result<Route, RunFault>
    ensures { result ≡ by_either code face }
{
    match code {
        Some(code) if !effect::is_locked(face) => Ok(Route::Settings(code)),
        _ => by_locks(face),
    }
}

// What is read of a chip, and what is wished of it.
#[derive(Clone, Copy)]
pub(crate) struct Task {
    pub(crate) face: Face,
    pub(crate) wish: Wish,
}

impl Task {
    // The smallest code of the part that gives the set.
    fn code(self) -> Option<u8>
        ensures { result ≡ smallest (codes_of self.face.part) self.wish.set }
    {
        units::code_of(self.wish.set, codes_of(self.face.part))
    }

    // The route that the wish takes, with the set that is protected now, or why there is none.
    #[tactic(auto, unfolding(crate::specs::Plan::chosen))]
    pub(crate) fn route(self, protected_now: u64) -> Result<Route, RunFault>
        requires { protected_now ≡ protected self.face }
        ensures { result ≡ chosen self.face self.wish.set self.wish.term }
    {
        let code = self.code();
        let settled = protected_now == self.wish.set;
        match self.face.part {
            Part::Jw => match self.wish.term {
                Term::Now => if settled {
                    Ok(Route::Nothing)
                } else {
                    by_either(code, self.face)
                },
                Term::Kept => by_code(code, self.face),
            },
            Part::Xa => if settled {
                Ok(Route::Nothing)
            } else {
                by_code(code, self.face)
            },
            Part::Other(_) => Err(RunFault::NoCode),
        }
    }
}
