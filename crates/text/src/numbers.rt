// Numbers in hexadecimal and in decimal.
ghost use Rattle.std.specs.Prelude.{◌≡◌, ◌^◌, ◌<◌, ◌≤◌, length, IfSome, IfOk};
ghost use Rattle.text.specs.Fields.{plain};
ghost use Rattle.text.specs.Numbers.{nibble, digit, read, hex_of, decimal_of};

use crate::fields::Field;
use refusals::SheetFault;

// What a hexadecimal digit counts; its letters are capitals.
#[tactic(auto, using(crate::proofs::Shown::hexadecimal))]
pub fn hex_digit(b: u8) -> Option<u8>
    ensures value { result ≡ nibble b }
    ensures small { IfSome result (λ d. d < 16) }
{
    digit(b, 16)
}

// What a digit counts in a base up to 16.
fn digit(b: u8, base: u8) -> Option<u8>
    ensures value { result ≡ digit base b }
    ensures small { IfSome result (λ d. d < base) }
{
    match b {
        b'0'..=b'9' if b - b'0' < base => Some(b - b'0'),
        b'A'..=b'F' if b - b'A' + 10 < base => Some(b - b'A' + 10),
        _ => None,
    }
}

// The number that a field of exactly `width` hexadecimal digits tells. No field may have more than 16.
pub fn hex(field: Field, width: usize) -> Result<u64, SheetFault>
    ensures value { result ≡ hex_of width (plain field.entry) }
    ensures small { IfOk result (λ v. v < 16 ^ width) }
{
    if field.text.len() != width || width > 16 {
        return Err(field.misread());
    }
    digits(field, 16)
}

// The number that a field of 1 to `longest` decimal digits tells, 9 at most, with no zero in front.
pub fn decimal(field: Field, longest: usize) -> Result<u32, SheetFault>
    ensures value { result ≡ decimal_of longest (plain field.entry) }
    ensures small { IfOk result (λ v. v < 10 ^ 9) }
{
    let length = field.text.len();
    if length == 0 || length > longest.min(9) {
        return Err(field.misread());
    }
    // Stays a cast: that nine digits fit is proved, and `try_from` would add a refusal that cannot come.
    let value = digits(field, 10)? as u32;
    if length > 1 && field.text[0] == b'0' {
        return Err(field.misread());
    }
    Ok(value)
}

// The number that digits of a base tell, zeros in front or not. A field may claim any place, so the place of a wrong
// digit stops at the largest number.
fn digits(field: Field, base: u8) -> Result<u64, SheetFault>
    requires room { base ^ length field.text.now ≤ 2 ^ 64 }
    ensures value { result ≡ read base 0 field.entry.at field.entry.text.now }
    ensures small { IfOk result (λ v. v < base ^ length field.entry.text.now) }
{
    let mut sum = 0;
    for (i, b) in field.text.iter().enumerate() {
        let Some(digit) = digit(*b, base) else {
            return Err(SheetFault::Field {
                place: field.at.saturating_add(i),
            });
        };
        sum = u64::from(base) * sum + u64::from(digit);
    }
    Ok(sum)
}
