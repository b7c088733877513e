// The chip itself.
ghost use Rattle.foreign.specs.Foreign.{foreign_state, Strange, Kept};
ghost use Rattle.std.specs.Prelude.{◌≡◌, ◌≤◌, true, false, MatchOption};
ghost use Rattle.std.specs.Int.Bits.{bit_and};
ghost use Rattle.std.proofs.Common.{rules};

use crate::memory::Memory;
use chip::interface::Chip;
use chip::model::{Answer, Exchange, Part, Question};

#[derive(Clone, Copy)]
pub struct ForeignChip {
    memory: Memory,
    ghost strange: { Strange memory.number },
    ghost kept: { Kept memory },
}

impl ForeignChip {
    // A chip with this part number, SR1, busy and carry; refused where the number is a known one, and out of bounds.
    pub fn new(number: u32, sr1: u8, busy: u16, carry: u32) -> Option<ForeignChip>
        ensures { MatchOption result (Strange number × ((bit_and sr1 252 ≡ sr1) × ((busy ≤ 1000) × (carry ≤ 1000000))) → ⊥) (λ x. x.memory ≡ record { number = number; sr1 = sr1; wp = true; armed = false; busy = busy; carry = carry }) }
    {
        if number >= 0x100_0000 || !matches!(Part::from(number), Part::Other(_)) {
            return None;
        }
        if sr1 & 0xFC != sr1 || busy > 1000 || carry > 1_000_000 {
            return None;
        }
        Some(ForeignChip {
            memory: Memory {
                number,
                sr1,
                wp: true,
                armed: false,
                busy,
                carry,
            },
        })
    }
}

impl Chip for ForeignChip {
    ghost state = { λ x. foreign_state x.memory };

    ghost sound = { Prim.search rules };

    // Stays written apart from the simulated parts, which are to owe nothing to this chip, nor it to them.
    fn exchange(&mut self, e: Exchange) -> Answer {
        if self.memory.carry == 0 {
            return Answer::Down;
        }
        self.memory.carry -= 1;
        match e {
            Exchange::Ask(Question::Status1) => {
                let wel = u32::from(self.memory.armed);
                let busy = u32::from(self.memory.busy > 0);
                self.memory.busy = self.memory.busy.saturating_sub(1);
                Answer::Value(u32::from(self.memory.sr1) + 2 * wel + busy)
            }
            Exchange::Ask(Question::PartNumber) => {
                Answer::Value(if self.memory.busy == 0 {
                    self.memory.number
                } else {
                    0xFF_FFFF
                })
            }
            // it owes no answer to another question, and is upset by it
            Exchange::Ask(_) => {
                self.memory.busy = 1000;
                self.memory.armed = true;
                Answer::Carried
            }
            // nor does it owe that a command changes nothing
            Exchange::Send(_) => {
                self.memory.sr1 = 0;
                Answer::Carried
            }
        }
    }

    fn key(&mut self, high: bool) {
        self.memory.wp = high;
        self.memory.armed = high;
    }

    fn level(&self) -> bool {
        self.memory.wp
    }

    fn power(&mut self) {
        self.memory.busy = 3;
    }
}
