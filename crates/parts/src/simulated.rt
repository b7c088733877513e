// A simulated chip: the memory of a part, on a line.
ghost use Rattle.chip.specs.Start.{Startable, started};
ghost use Rattle.chip.specs.Step.{asked, status1};
ghost use Rattle.parts.specs.Holding.{over};
ghost use Rattle.std.specs.Prelude.{◌≡◌, MatchOption};
ghost use Rattle.units.specs.Units.{has};

use crate::line::Line;
use crate::memory::Memory;
use chip::effect;
use chip::interface::Chip;
use chip::model::{Answer, Exchange, Face, Question, Start, State};

#[derive(Clone, Copy)]
pub struct Simulated<M> {
    memory: M,
    line: Line,
}

impl<M: Memory> Simulated<M> {
    // A chip that starts so. Refused where a bit is set that must read 0, and where it would be slower, or its cable
    // carry more, than a chip may.
    pub fn new(start: Start) -> Option<Simulated<M>>
        ensures { MatchOption result (Startable M.part start → ⊥) (λ x. Startable M.part start × (over (M.held x.memory) x.line ≡ started M.part start)) }
    {
        let memory = M::started(start)?;
        let line = Line::started(start)?;
        Some(Simulated { memory, line })
    }

    fn state(&self) -> State
        ensures { result ≡ over (M.held self.now.memory) self.now.line }
    {
        let held = self.memory.held();
        State {
            face: Face {
                part: held.part,
                working: held.working,
                locks: held.locks,
                wp: self.line.wp,
            },
            stored: held.stored,
            arming: held.arming,
            busy: self.line.busy,
            slow: self.line.slow,
            carry: self.line.carry,
        }
    }
}

// SR1 with WEL and BUSY.
fn status1(state: State) -> u32
    ensures { result ≡ status1 state }
{
    let wel = u32::from(effect::is_armed_stored(state.arming));
    let busy = u32::from(state.busy > 0);
    u32::from(state.face.working.sr1) + 2 * wel + busy
}

// The lock bit of a unit, 0 where there is none.
// Stays a test before the shift: by `checked_shr` and `map_or` the search alone did not close the proof.
fn lock_bit(locks: u64, unit: u8) -> u32
    ensures { result ≡ has locks unit }
{
    if unit < 64 {
        // Stays a cast: that a remainder by 2 fits is proved, and `try_from` would add a refusal that cannot come.
        ((locks >> unit) % 2) as u32
    } else {
        0
    }
}

// The answer to a question that the cable has carried: while BUSY, all but SR1 are answered with ones.
fn asked(question: Question, state: State) -> u32
    ensures { result ≡ asked question state }
{
    let ready = state.busy == 0;
    match question {
        Question::Status1 => status1(state),
        Question::Status2 => if ready {
            u32::from(state.face.working.sr2)
        } else {
            0xFF
        },
        Question::Status3 => if ready {
            u32::from(state.face.working.sr3)
        } else {
            0xFF
        },
        Question::PartNumber => if ready {
            u32::from(state.face.part)
        } else {
            0xFF_FFFF
        },
        Question::Lock(unit) => if ready {
            lock_bit(state.face.locks, unit)
        } else {
            1
        },
    }
}

impl<M: Memory> Chip for Simulated<M> {
    ghost state = { λ x. over (M.held x.memory) x.line };

    ghost sound = { λ x. M.sound x.memory x.line };

    fn exchange(&mut self, e: Exchange) -> Answer {
        let state = self.state();
        if state.carry == 0 {
            return Answer::Down;
        }
        self.line.carry -= 1;
        match e {
            Exchange::Ask(question) => {
                // a read of SR1 brings the end of BUSY nearer
                if question == Question::Status1 {
                    self.line.busy = self.line.busy.saturating_sub(1);
                }
                Answer::Value(asked(question, state))
            }
            Exchange::Send(command) => {
                let idle = state.busy == 0;
                if idle {
                    self.memory.obey(command, &mut self.line);
                }
                Answer::Carried
            }
        }
    }

    fn key(&mut self, high: bool) {
        self.line.wp = high;
    }

    fn level(&self) -> bool {
        self.line.wp
    }

    fn power(&mut self) {
        self.memory.power();
        self.line.busy = 0;
    }
}
