// A session: a chip, what is known of it, and the calls on it.
ghost use Rattle.session.specs.Calls.{look_answer, after_look, KeyTurned, PowerCycled, judge_answer, Verdict, protected_shown};
ghost use Rattle.session.specs.Reach.{Reached};
ghost use Rattle.session.specs.Trace.{ReachLaw};
ghost use Rattle.session.specs.View.{view, reading_in};
ghost use Rattle.std.specs.Prelude.{◌≡◌, None};

use crate::look;
use crate::send::Link;
use chip::effect;
use chip::interface::Chip;
use chip::model::Command;
use picture::array::ArrayCommand;
use picture::picture::Picture;
use plan::wish::{Term, Wish};
use refusals::RunFault;
use units::Range;

// Stays without a model: tried, and it proves here, but it hides the chip, and with it what holds of every chip of a caller's own
// type `C`, such as that its part is a known one, on which key, power and reach rest. It would also ask for `C: Chip`.
#[derive(Drop)]
pub struct Session<C> {
    chip: C,
    number: u16,
    // none while the session is blind
    picture: Option<Picture>,
}

impl<C: Chip> Session<C> {
    // A session over the chip, whatever state that is in. It starts blind.
    pub fn open(chip: C, number: u16) -> Session<C>
        ensures { view C.Chip.state result ≡ record { state = C.Chip.state chip; number = number; picture = None } }
    {
        Session {
            chip,
            number,
            picture: None,
        }
    }

    // Reads all that can be read of the chip, and answers the protected set.
    pub fn look(&mut self) -> Result<u64, RunFault>
        ensures answer { result ≡ look_answer (view C.Chip.state self.old) }
        ensures after { view C.Chip.state self.new ≡ after_look (view C.Chip.state self.old) }
    {
        // blind, unless all is read
        self.picture = None;
        let picture = look::read(&mut self.chip)?;
        self.picture = Some(picture);
        Ok(picture.protected())
    }

    // Sets the level of /WP.
    pub fn key(&mut self, high: bool)
        ensures { KeyTurned high (view C.Chip.state self.old) (view C.Chip.state self.new) }
    {
        self.chip.key(high);
        if let Some(picture) = &mut self.picture {
            picture.key(high);
        }
    }

    // Power off and on. What was known of the chip is known no more.
    pub fn power(&mut self)
        ensures { PowerCycled (view C.Chip.state self.old) (view C.Chip.state self.new) }
    {
        self.chip.power();
        self.picture = None;
    }

    // Whether the chip obeys the command with this code, of those that change the array, at this address.
    pub fn judge(&self, code: u8, address: u32) -> Result<bool, RunFault>
        ensures answer { result ≡ judge_answer code address (view C.Chip.state self.now) }
        ensures verdict { Verdict result code address (view C.Chip.state self.now) }
    {
        let command = ArrayCommand::try_from(code)?;
        units::in_array(address)?;
        let picture = self.picture.ok_or(RunFault::Blind)?;
        // the address is in the array
        Ok(picture.obeys(command, address).unwrap())
    }

    // Has just the units of the ranges protected, for now or for good; answers how many commands that took. The plan
    // stands in the first of the places.
    // Stays places and a count: the places are the caller's, and there is no heap.
    pub fn reach(
        &mut self,
        ranges: &[Range],
        term: Term,
        slots: &mut [Command],
    ) -> Result<usize, RunFault>
        ensures reached { Reached ranges.now term (view C.Chip.state self.old) slots.old result (view C.Chip.state self.new) slots.new }
        ensures law { ReachLaw ranges.now term (view C.Chip.state self.old) }
    {
        self.run_wish(ranges, term, slots)
    }

    // Checks, plans and sends a wish for the units of the ranges.
    fn run_wish(
        &mut self,
        ranges: &[Range],
        term: Term,
        slots: &mut [Command],
    ) -> Result<usize, RunFault>
        ensures { Reached ranges.now term (view C.Chip.state self.old) slots.old result (view C.Chip.state self.new) slots.new }
    {
        let set = units::units_of(ranges)?;
        let picture = self.picture.ok_or(RunFault::Blind)?;
        if effect::is_suspended(picture.reading().face) {
            return Err(RunFault::Suspended);
        }
        let count = laws::plan_for(&picture, Wish { set, term }, slots)?;
        let mut link = Link {
            chip: &mut self.chip,
            picture,
        };
        let sent = link.send(&slots[0..count]);
        // Stays a copy that is stored back: after a struct held a `&mut` into the `Option`, its value is not known. Done or
        // not, the picture shows what was sent.
        self.picture = Some(link.picture);
        sent?;
        Ok(count)
    }

    // The picture, without asking the chip.
    pub fn picture(&self) -> Option<Picture>
        ensures { result ≡ self.now.picture }
    {
        // a copy: the session goes on with its own
        self.picture
    }

    // The set that the picture shows as protected, without asking the chip.
    pub fn protected(&self) -> Option<u64>
        ensures { result ≡ protected_shown (reading_in self.now.picture) }
    {
        self.picture.map(|picture| picture.protected())
    }

    // The session's number.
    pub fn number(&self) -> u16
        ensures { result ≡ self.now.number }
    {
        self.number
    }
}
