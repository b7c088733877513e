// What a W25Q16JW holds.
ghost use Rattle.chip.specs.Effect.{Clear, lock_bits};
ghost use Rattle.chip.specs.declared.model.Part.TheVariants.{Jw};
ghost use Rattle.std.specs.Prelude.{◌≡◌, bit_and};

use chip::model::{Arming, Registers};

#[derive(Clone, Copy)]
pub struct JwMemory {
    // first, since fields lie in this order: behind the registers it would leave a gap, and the chip take 40 bytes for 32
    pub(crate) locks: u64,
    pub(crate) working: Registers,
    pub(crate) stored: Registers,
    pub(crate) arming: Arming,
    // no bit is set that must read 0, and neither SRL nor SUS is stored
    ghost clear: { Clear Jw working },
    ghost stored_clear: { Clear Jw stored },
    ghost lasts: { bit_and stored.sr2 122 ≡ stored.sr2 },
    ghost locks_clear: { bit_and locks (lock_bits Jw) ≡ locks },
}
