// A line of a sheet as a record of borrowed fields, each with its place in the line.
ghost use Rattle.records.specs.Records.{record_of, by_word, chip_of, told_record, told_chip};
ghost use Rattle.text.specs.Fields.{left, ended, after};
ghost use Rattle.std.specs.Prelude.{◌≡◌, Ok};

use refusals::SheetFault;
use text::fields::{Field, Fields};
use text::lines::admit;

// The fields of a chip record.
#[derive(Clone, Copy, Debug, PartialEq, Eq)]
pub struct ChipFields<'a> {
    pub part: Field<'a>,
    pub sr1: Field<'a>,
    pub sr2: Field<'a>,
    pub sr3: Field<'a>,
    pub locks: Field<'a>,
    pub wp: Field<'a>,
    pub slow: Field<'a>,
    pub carry: Field<'a>,
}

#[derive(Clone, Copy, Debug, PartialEq, Eq)]
pub enum Record<'a> {
    Chip(ChipFields<'a>),
    Look,
    Key { level: Field<'a> },
    Power,
    Judge { code: Field<'a>, address: Field<'a> },
}

// The eight fields after the word `chip`. That nothing comes after is left to the caller. Inlined, since a call leaves its answer in
// memory, and every record, of which a chip's is the largest, is then copied twice.
#[inline(always)]
fn chip_of<'a>(fields: &mut Fields<'a>) -> Result<ChipFields<'a>, SheetFault>
    ensures { chip_of (left fields.old) ≡ after (told_chip result) (λ f. after (ended (left fields.new)) (λ _. Ok f)) }
{
    Ok(ChipFields {
        part: fields.need()?,
        sr1: fields.need()?,
        sr2: fields.need()?,
        sr3: fields.need()?,
        locks: fields.need()?,
        wp: fields.need()?,
        slow: fields.need()?,
        carry: fields.need()?,
    })
}

// What follows the word makes the record, and nothing comes after.
fn by_word<'a>(word: &[u8], mut fields: Fields<'a>) -> Result<Record<'a>, SheetFault>
    ensures { told_record result ≡ by_word word.now (left fields.entry) }
{
    let record = match word {
        b"look" => Record::Look,
        b"judge" => Record::Judge {
            code: fields.need()?,
            address: fields.need()?,
        },
        b"key" => Record::Key {
            level: fields.need()?,
        },
        b"power" => Record::Power,
        b"chip" => Record::Chip(chip_of(&mut fields)?),
        _ => return Err(SheetFault::Word),
    };
    fields.end()?;
    Ok(record)
}

// The record that a line is, or why it is none: its bytes, its word, its count of fields.
impl<'a> TryFrom<&'a [u8]> for Record<'a> {
    type Error = SheetFault;

    ghost try_from_gives = { λ line r. told_record r ≡ record_of line.now };

    #[tactic(auto, unfolding(crate::specs::Records::record_of))]
    fn try_from(line: &'a [u8]) -> Result<Record<'a>, SheetFault> {
        admit(line)?;
        let mut fields = Fields::of(line);
        let word = fields.need()?;
        by_word(word.text, fields)
    }
}
