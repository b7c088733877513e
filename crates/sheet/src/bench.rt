// The bench on which a sheet is run: no chip yet, or a session over one.
ghost use Rattle.records.specs.Records.{chip_text};
ghost use Rattle.sheet.specs.Bench.{desk_of, told_start, next_start, told_look, next_look, told_key, next_key, told_power, next_power, told_judge, command_in, told, next};
ghost use Rattle.text.specs.Fields.{plain};
ghost use Rattle.std.specs.Prelude.{◌≡◌, None};

use chip::interface::Chip;
use parts::any::AnyPart;
use picture::array::ArrayCommand;
use records::record::{ChipFields, Record};
use records::values;
use refusals::{Placed, RunFault, SheetFault};
use session::Session;
use text::fields::Field;

#[derive(Drop)]
pub(crate) struct Bench {
    session: Option<Session<AnyPart>>,
}

// What a line is answered, where it is not refused.
#[derive(Clone, Copy)]
pub(crate) enum Said {
    // ok
    Fine,
    // seen, with the protected set
    Seen(u64),
    // obeyed
    Obeyed,
    // ignored
    Ignored,
}

impl Bench {
    // A bench without a chip.
    pub(crate) fn empty() -> Bench
        ensures { desk_of result ≡ None }
    {
        Bench { session: None }
    }

    // A chip record: a new chip, and a blind session over it. A refused one changes nothing.
    fn start(&mut self, fields: ChipFields, number: u16) -> Result<Said, SheetFault>
        ensures answer { result ≡ told_start (chip_text fields.entry) }
        ensures after { desk_of self.new ≡ next_start (chip_text fields.entry) number (desk_of self.old) }
    {
        let part = values::part_in(fields.part)?;
        let start = values::values_in(part, fields)?;
        let Some(chip) = AnyPart::new(part, start) else {
            // the field names one of the two parts, and what it starts with is fair
            unreachable()
        };
        self.session = Some(Session::open(chip, number));
        Ok(Said::Fine)
    }

    fn look(&mut self) -> Result<Said, SheetFault>
        ensures answer { result ≡ told_look (desk_of self.old) }
        ensures after { desk_of self.new ≡ next_look (desk_of self.old) }
    {
        let session = self.session.as_mut().ok_or(SheetFault::NoChip)?;
        let set = session.look().map_err(|fault| Placed { fault, place: 0 })?;
        Ok(Said::Seen(set))
    }

    fn key(&mut self, level: Field) -> Result<Said, SheetFault>
        ensures answer { result ≡ told_key (plain level.entry) (desk_of self.old) }
        ensures after { desk_of self.new ≡ next_key (plain level.entry) (desk_of self.old) }
    {
        let high = values::level_in(level)?;
        let session = self.session.as_mut().ok_or(SheetFault::NoChip)?;
        session.key(high);
        Ok(Said::Fine)
    }

    fn power(&mut self) -> Result<Said, SheetFault>
        ensures answer { result ≡ told_power (desk_of self.old) }
        ensures after { desk_of self.new ≡ next_power (desk_of self.old) }
    {
        let session = self.session.as_mut().ok_or(SheetFault::NoChip)?;
        session.power();
        Ok(Said::Fine)
    }

    fn judge(&self, code: Field, address: Field) -> Result<Said, SheetFault>
        ensures { result ≡ told_judge (plain code.entry) (plain address.entry) (desk_of self.now) }
    {
        let (code, address) = command_in(code, address)?;
        let session = self.session.as_ref().ok_or(SheetFault::NoChip)?;
        let obeyed = session
            .judge(code, address)
            .map_err(|fault| Placed { fault, place: 0 })?;
        if obeyed {
            Ok(Said::Obeyed)
        } else {
            Ok(Said::Ignored)
        }
    }

    // What a line is answered, and what it leaves; its number goes to the session that a chip record opens.
    #[tactic(auto, unfolding(crate::specs::Bench::told, crate::specs::Bench::next))]
    pub(crate) fn obey(&mut self, line: &[u8], number: u16) -> Result<Said, SheetFault>
        ensures answer { result ≡ told line.now (desk_of self.old) }
        ensures after { desk_of self.new ≡ next line.now number (desk_of self.old) }
    {
        match Record::try_from(line)? {
            Record::Chip(fields) => self.start(fields, number),
            Record::Look => self.look(),
            Record::Key { level } => self.key(level),
            Record::Power => self.power(),
            Record::Judge { code, address } => self.judge(code, address),
        }
    }
}

// The command and the address to judge: the code is tried before the address is read.
fn command_in(code: Field, address: Field) -> Result<(u8, u32), SheetFault>
    ensures { result ≡ command_in (plain code.entry) (plain address.entry) }
{
    let c = values::code_in(code)?;
    ArrayCommand::try_from(c).map_err(|fault| Placed {
        fault,
        place: code.at,
    })?;
    let a = values::address_in(address)?;
    units::in_array(a).map_err(|fault| Placed {
        fault,
        place: address.at,
    })?;
    Ok((c, a))
}
