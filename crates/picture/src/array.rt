// The commands that change the array.
ghost use Rattle.picture.specs.Protection.{array_command, extent, offers, region};
ghost use Rattle.refusals.specs.declared.RunFault.TheVariants.{Code};
ghost use Rattle.units.specs.Units.{array_size};
ghost use Rattle.std.specs.Option.{ok_or};
ghost use Rattle.std.specs.Prelude.{◌≡◌, ◌<◌, ◌≤◌};

use chip::model::Part;
use refusals::RunFault;
use units::{ARRAY_SIZE, Range};

#[derive(Clone, Copy, Debug, PartialEq, Eq)]
pub enum ArrayCommand {
    // 02h, 256 bytes
    ProgramPage,
    // 20h, 4 KB
    EraseSector,
    // 52h, 32 KB
    EraseHalfBlock,
    // D8h, 64 KB
    EraseBlock,
    // C7h, the whole array
    EraseChip,
}

impl TryFrom<u8> for ArrayCommand {
    type Error = RunFault;

    ghost try_from_gives = { λ code r. r ≡ ok_or (array_command code) Code };

    // The command with this code; any other code is none that can be judged.
    fn try_from(code: u8) -> Result<ArrayCommand, RunFault> {
        match code {
            0x02 => Ok(ArrayCommand::ProgramPage),
            0x20 => Ok(ArrayCommand::EraseSector),
            0x52 => Ok(ArrayCommand::EraseHalfBlock),
            0xD8 => Ok(ArrayCommand::EraseBlock),
            0xC7 => Ok(ArrayCommand::EraseChip),
            _ => Err(RunFault::Code),
        }
    }
}

impl ArrayCommand {
    // How many bytes it changes.
    fn extent(self) -> u32
        ensures { result ≡ extent self }
    {
        match self {
            ArrayCommand::ProgramPage => 256,
            ArrayCommand::EraseSector => 4096,
            ArrayCommand::EraseHalfBlock => 32768,
            ArrayCommand::EraseBlock => 65536,
            ArrayCommand::EraseChip => ARRAY_SIZE,
        }
    }

    // The bytes that it changes at an address.
    pub(crate) fn region(self, address: u32) -> Range
        requires { address < array_size }
        ensures value { result ≡ region self address }
        ensures within { (result.first ≤ result.last) × (result.last < array_size) }
    {
        let extent = self.extent();
        let first = address / extent * extent;
        Range {
            first,
            last: first + extent - 1,
        }
    }

    // Whether the part has it.
    pub(crate) fn offered_by(self, part: Part) -> bool
        ensures { result ≡ offers part self }
    {
        match part {
            Part::Jw => true,
            Part::Xa => self != ArrayCommand::EraseHalfBlock,
            Part::Other(_) => false,
        }
    }
}
