// The planner: the commands for a wish, from a picture alone.
ghost use Rattle.plan.specs.Plan.{by_lock_bits, is_kept, arm, third_byte, settings, lock_plan, commands_of, planned};
ghost use Rattle.plan.specs.Sinks.{Writes};
ghost use Rattle.plan.specs.Written.{Plans, Codable};
ghost use Rattle.chip.specs.declared.model.Bytes.TheVariants.{One};
ghost use Rattle.chip.specs.declared.model.Part.TheVariants.{Jw, Xa};
ghost use Rattle.refusals.specs.declared.RunFault.TheVariants.{Full};
ghost use Rattle.std.specs.Prelude.{◌≡◌, ◌<◌, ◌≤◌, ◌||◌, [], ◌∷◌, length, IfOk, if◌then◌else◌, Err, ◌≢◌};

use crate::choose::Task;
use crate::commands::{armed, first_byte, second_byte, sweep, third_byte};
use crate::sink::{Room, Sink};
use crate::wish::{Route, Term, Wish};
use chip::effect;
use chip::model::{Bytes, Command, Part};
use picture::picture::Picture;
use places::Places;
use refusals::RunFault;

// The commands that set the lock bit at a unit's address, and clear it.
const LOCK: u8 = 0x36;

const UNLOCK: u8 = 0x39;

impl Task {
    // Whether WPS has to be lowered once a code is in.
    #[tactic(auto, unfolding(crate::specs::Plan::by_lock_bits))]
    fn lowers_wps(self) -> bool
        ensures { result ≡ (by_lock_bits self.face || is_kept self.wish.term) }
    {
        effect::has_wps(self.face) || self.wish.term == Term::Kept
    }

    fn set_wps<S: Sink>(self, to: &mut S, term: Term, wps: bool) -> Result<(), RunFault>
        ensures { Writes S.room S.takes (arm term ∷ (record { code = 17; bytes = One (third_byte self.face (if wps then 1 else 0)) } ∷ [])) result to.old to.new }
    {
        let bytes = Bytes::One(third_byte(self.face, wps));
        armed(to, term, Command { code: 0x11, bytes })
    }

    // SR1 and SR2 by one command, then WPS lowered where it has to be.
    fn settings_jw<S: Sink>(self, to: &mut S, code: u8) -> Result<(), RunFault>
        requires { code < 64 }
        ensures { Writes S.room S.takes (settings Jw self.wish.term self.face code) result to.old to.new }
    {
        let bytes = Bytes::Two(first_byte(self.face, code), second_byte(self.face, code));
        armed(to, self.wish.term, Command { code: 0x01, bytes })?;
        if self.lowers_wps() {
            self.set_wps(to, self.wish.term, false)
        } else {
            Ok(())
        }
    }

    // SR1 alone. The part has no 50h, so 06h is before it for either term.
    fn settings_xa<S: Sink>(self, to: &mut S, code: u8) -> Result<(), RunFault>
        ensures { Writes S.room S.takes (settings Xa self.wish.term self.face code) result to.old to.new }
    {
        let bytes = Bytes::One(first_byte(self.face, code));
        armed(to, Term::Kept, Command { code: 0x01, bytes })
    }

    // Wanted units are locked, then the others unlocked; WPS is raised last, where it is 0.
    fn locks<S: Sink>(self, to: &mut S) -> Result<(), RunFault>
        ensures { Writes S.room S.takes (lock_plan self.face self.wish.set) result to.old to.new }
    {
        let wanted = self.wish.set;
        let locked = self.face.locks;
        sweep(to, wanted & !locked, LOCK)?;
        sweep(to, locked & !wanted, UNLOCK)?;
        if effect::has_wps(self.face) {
            Ok(())
        } else {
            self.set_wps(to, Term::Now, true)
        }
    }

    // The commands of a route.
    fn commands<S: Sink>(self, to: &mut S, route: Route) -> Result<(), RunFault>
        requires { Codable route }
        ensures { Writes S.room S.takes (commands_of route self.face self.wish.set self.wish.term) result to.old to.new }
    {
        match route {
            Route::Nothing => Ok(()),
            Route::Settings(code) => match self.face.part {
                Part::Jw => self.settings_jw(to, code),
                Part::Xa => self.settings_xa(to, code),
                Part::Other(_) => Ok(()),
            },
            Route::Locks => self.locks(to),
        }
    }
}

// The commands that meet a wish on a chip with this picture, written into the first of the places, or why there are
// none. Nothing is sent; refused, the places are as before. 126 places are enough for every plan.
// Stays places and a length: the places are the caller's, and there is no heap.
#[tactic(auto, using(crate::proofs::Short::chosen_fair, crate::proofs::Short::commands_short))]
pub fn plan(picture: &Picture, wish: Wish, slots: &mut [Command]) -> Result<usize, RunFault>
    ensures plan { Plans (planned picture.now.reading.face wish.set wish.term) result slots.old slots.new }
    ensures enough { 126 ≤ length slots.old → result ≢ Err Full }
    ensures short { IfOk result (λ n. n ≤ 126) }
{
    let face = picture.reading().face;
    let task = Task { face, wish };
    let route = task.route(picture.protected())?;
    // Taken by bare room first: a plan that is too long is refused before a place is written.
    let mut room = Room { left: slots.len() };
    task.commands(&mut room, route)?;
    let mut list = Places::new(slots);
    task.commands(&mut list, route)?;
    Ok(list.entries().len())
}
