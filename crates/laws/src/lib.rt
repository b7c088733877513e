// The planner, with what its plans are good for.

#![tactic(auto)]

ghost use Rattle.laws.specs.Laws.{Lawful};
ghost use Rattle.laws.specs.Whole.{HeldWhole, MetWhole};
ghost use Rattle.plan.specs.Plan.{planned};
ghost use Rattle.plan.specs.Written.{Plans};
ghost use Rattle.refusals.specs.declared.RunFault.TheVariants.{Full};
ghost use Rattle.std.specs.Prelude.{◌≡◌, ◌≤◌, length, IfOk, Err, ◌≢◌};

use chip::model::Command;
use picture::picture::Picture;
use plan::wish::Wish;
use refusals::RunFault;

// The commands that meet a wish on every chip that reads as the picture does, written into the first of the places, or
// why there are none. Refused, no list of commands would meet the wish on every such chip. Nothing is sent. 126 places
// are enough for every plan.
//
// However the commands are then sent, each while the chip is not busy, and wherever the cable goes down: no unit is lost
// that is protected before and in the wish, and none is protected that is in neither; all sent, the wish is met.
// Stays places and a count: the places are the caller's, and there is no heap.
pub fn plan_for(picture: &Picture, wish: Wish, slots: &mut [Command]) -> Result<usize, RunFault>
    ensures plan { Plans (planned picture.now.reading.face wish.set wish.term) result slots.old slots.new }
    ensures enough { 126 ≤ length slots.old → result ≢ Err Full }
    ensures short { IfOk result (λ n. n ≤ 126) }
    ensures law { Lawful picture.now.reading.face wish.set wish.term }
    ensures held { HeldWhole }
    ensures met { MetWhole }
{
    plan::plan(picture, wish, slots)
}
