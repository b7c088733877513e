// Worked examples of the definitions.

#![tactic(auto)]

ghost use Rattle.cells.specs.Cells.{Cells};
ghost use Rattle.std.specs.Prelude.{◌≡◌};

// How many there are. All of them hold.
pub fn cells() -> u8
    ensures cells { Cells }
    ensures count { result ≡ 12 }
{
    12
}
