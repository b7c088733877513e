// A look at a chip.
ghost use Rattle.chip.specs.declared.model.Part.TheVariants.{Jw};
ghost use Rattle.session.specs.Asked.{Finds};
ghost use Rattle.session.specs.Look.{looking, looked};
ghost use Rattle.session.specs.Seen.{rest_of, seen};
ghost use Rattle.std.specs.Prelude.{◌≡◌, Ok, Err, MatchResult};

use crate::asking::{ask, read_locks, wait};
use crate::rest::Rest;
use chip::interface::Chip;
use chip::model::{Arming, Face, Part, Question, Registers};
use picture::picture::Picture;
use picture::reading::Reading;
use refusals::{CableFault, RunFault};

// Reads what a W25Q16JW has beyond SR1.
fn read_rest<C: Chip>(chip: &mut C) -> Result<Rest, CableFault>
    requires { ((C.Chip.state chip.old).face.part ≡ Jw) × ((C.Chip.state chip.old).busy ≡ 0) }
    ensures { Finds 64 (rest_of (C.Chip.state chip.old)) (C.Chip.state chip.old) result (C.Chip.state chip.new) }
{
    let sr2 = ask(chip, Question::Status2)?;
    let sr3 = ask(chip, Question::Status3)?;
    let locks = read_locks(chip)?;
    // Stays a cast, here and in `picture_of`: that the masked answer fits a byte is proved, and `try_from` would add a refusal
    // that cannot come.
    Ok(Rest {
        sr2: (sr2 & 0xFF) as u8,
        sr3: (sr3 & 0xFF) as u8,
        locks,
    })
}

// The picture that the answers make.
fn picture_of(part: Part, sr1: u32, rest: Rest, wp: bool) -> Picture
    ensures { result.reading ≡ seen part sr1 rest wp }
{
    let working = Registers {
        sr1: (sr1 & 0xFC) as u8,
        sr2: rest.sr2,
        sr3: rest.sr3,
    };
    let face = Face {
        part,
        working,
        locks: rest.locks,
        wp,
    };
    let arming = if sr1 / 2 % 2 == 1 {
        Arming::Stored
    } else {
        Arming::Disarmed
    };
    Picture::masked(Reading {
        face,
        arming,
        busy: false,
    })
}

// Looks at the chip.
pub(crate) fn read<C: Chip>(chip: &mut C) -> Result<Picture, RunFault>
    ensures answer { MatchResult result (λ p. looking (C.Chip.state chip.old) ≡ Ok p.reading) (λ f. looking (C.Chip.state chip.old) ≡ Err f) }
    ensures after { C.Chip.state chip.new ≡ looked (C.Chip.state chip.old) }
{
    let sr1 = wait(chip).map_err(|stop| stop.fault)?;
    let part = Part::from(ask(chip, Question::PartNumber)?);
    let rest = match part {
        Part::Jw => read_rest(chip)?,
        Part::Xa => Rest::default(),
        Part::Other(_) => return Err(RunFault::UnknownPart),
    };
    Ok(picture_of(part, sr1, rest, chip.level()))
}
