// What the fields of a record say.
ghost use Rattle.chip.specs.Start.{Startable};
ghost use Rattle.records.specs.Records.{chip_text};
ghost use Rattle.records.specs.Values.{bits_in, level_in, count_in, part_in, values_in};
ghost use Rattle.std.specs.Prelude.{◌≡◌, ◌^◌, ◌<◌, ◌≤◌, IfOk, bit_and};
ghost use Rattle.text.specs.Fields.{plain};
ghost use Rattle.text.specs.Numbers.{hex_of};

use crate::record::ChipFields;
use chip::effect;
use chip::model::{Part, Registers, Start};
use refusals::SheetFault;
use text::fields::Field;
use text::numbers::{decimal, hex};

// Hexadecimal digits, of whose bits only these may be set.
fn bits_in(field: Field, width: usize, bits: u64) -> Result<u64, SheetFault>
    ensures value { result ≡ bits_in width bits (plain field.entry) }
    ensures small { IfOk result (λ v. (v < 16 ^ width) × (bit_and v bits ≡ v)) }
{
    let value = hex(field, width)?;
    if value & bits == value {
        Ok(value)
    } else {
        Err(field.misread())
    }
}

// A register: two digits, of whose bits only these may be set.
fn register_in(field: Field, bits: u8) -> Result<u8, SheetFault>
    ensures value { result ≡ bits_in 2 bits (plain field.entry) }
    ensures clear { IfOk result (λ v. bit_and v bits ≡ v) }
{
    // Stays a cast, as those below: that two digits fit a byte is proved, and `try_from` would add a refusal that
    // cannot come.
    Ok(bits_in(field, 2, u64::from(bits))? as u8)
}

// A level, 0 or 1.
// Stays a function: an impl of `TryFrom` would have to stand beside the fields of a text, where no digit means a level yet.
pub fn level_in(field: Field) -> Result<bool, SheetFault>
    ensures { result ≡ level_in (plain field.entry) }
{
    match hex(field, 1)? {
        0 => Ok(false),
        1 => Ok(true),
        _ => Err(field.misread()),
    }
}

// A decimal number of so many digits at the most, up to this.
fn count_in(field: Field, longest: usize, most: u32) -> Result<u32, SheetFault>
    ensures value { result ≡ count_in longest most (plain field.entry) }
    ensures small { IfOk result (λ n. n ≤ most) }
{
    let number = decimal(field, longest)?;
    if number <= most {
        Ok(number)
    } else {
        Err(field.misread())
    }
}

// The part that a word names.
// Stays a function: an impl of `TryFrom` would have to stand beside the parts of a chip, and the words for them are the
// sheet's.
pub fn part_in(field: Field) -> Result<Part, SheetFault>
    ensures { result ≡ part_in (plain field.entry) }
{
    match field.text {
        b"JW" => Ok(Part::Jw),
        b"XA" => Ok(Part::Xa),
        _ => Err(field.misread()),
    }
}

// What a chip of this part starts with.
pub fn values_in(part: Part, fields: ChipFields) -> Result<Start, SheetFault>
    ensures value { result ≡ values_in part (chip_text fields.entry) }
    ensures fair { IfOk result (Startable part) }
{
    let bits = effect::bits_of(part);
    let sr1 = register_in(fields.sr1, bits.registers.sr1)?;
    let sr2 = register_in(fields.sr2, bits.registers.sr2)?;
    let sr3 = register_in(fields.sr3, bits.registers.sr3)?;
    let locks = bits_in(fields.locks, 16, bits.locks)?;
    let wp = level_in(fields.wp)?;
    let slow = count_in(fields.slow, 4, 1000)? as u16;
    let carry = count_in(fields.carry, 7, 1_000_000)?;
    Ok(Start {
        registers: Registers { sr1, sr2, sr3 },
        locks,
        wp,
        slow,
        carry,
    })
}

// A command's code: two digits.
// Stays beside the address: a width that fits its type is plainer than one function over both.
pub fn code_in(field: Field) -> Result<u8, SheetFault>
    ensures { result ≡ hex_of 2 (plain field.entry) }
{
    Ok(hex(field, 2)? as u8)
}

// An address: six digits.
pub fn address_in(field: Field) -> Result<u32, SheetFault>
    ensures value { result ≡ hex_of 6 (plain field.entry) }
    ensures small { IfOk result (λ a. a < 2 ^ 24) }
{
    Ok(hex(field, 6)? as u32)
}
