// What a W25X16A holds.
ghost use Rattle.std.specs.Prelude.{◌≡◌, bit_and};

// It has one register, which a write stores at once, no lock bits, and no arming but the stored one.
#[derive(Clone, Copy)]
pub struct XaMemory {
    pub(crate) sr1: u8,
    pub(crate) armed: bool,
    // no bit is set that must read 0
    ghost clear: { bit_and sr1 188 ≡ sr1 },
}
