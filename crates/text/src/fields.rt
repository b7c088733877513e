// The fields of a line.
ghost use Rattle.refusals.specs.declared.SheetFault.TheVariants.{Count, Field as field_at};
ghost use Rattle.text.specs.Fields.{parts, plain, fields_from, fields_left, left, unread, told, next_of, ended, at_most, start_of, Gives};
ghost use Rattle.std.specs.Iterator.{item_count};
ghost use Rattle.std.specs.Prelude.{◌≡◌, ◌∷◌, drop};

use crate::scan::{skip, up_to};
use refusals::SheetFault;

// A part of a line, with the place in it where the part starts.
#[derive(Clone, Copy, Debug, PartialEq, Eq)]
pub struct Field<'a> {
    pub text: &'a [u8],
    pub at: usize,
}

impl<'a> Field<'a> {
    // The refusal of what the field says, told where it starts.
    pub fn misread(self) -> SheetFault
        ensures { result ≡ field_at self.entry.at }
    {
        SheetFault::Field { place: self.at }
    }
}

// The fields of a line, read one after the other.
// Stays without a model: tried as an `impl Model` by the fields that are left; `Copy` is not supported where the model
// has no inverse, nor are derived comparisons.
#[derive(Clone, Copy, Debug, PartialEq, Eq)]
pub struct Fields<'a> {
    line: &'a [u8],
    // Where the next field starts, if one is left.
    at: Option<usize>,
}

impl<'a> Fields<'a> {
    // All fields of a line, of which there is at least one.
    // Stays beside `From`: the line is not turned into fields, a reader of it is set up.
    pub fn of(line: &'a [u8]) -> Fields<'a>
        ensures { left result ≡ unread line.now }
    {
        Fields { line, at: Some(0) }
    }

    // The next field, of which there has to be one. Inlined, for what reads a record.
    #[inline(always)]
    pub fn need(&mut self) -> Result<Field<'a>, SheetFault>
        ensures { next_of (left self.old) ≡ (told result, left self.new) }
    {
        let Some(at) = self.at else {
            return Err(self.miscounted());
        };
        let (field, next) = cut(self.line, at);
        self.at = next;
        Ok(field)
    }

    // Whether all fields are read.
    pub fn end(&self) -> Result<(), SheetFault>
        ensures { result ≡ ended (left self.now) }
    {
        match self.at {
            None => Ok(()),
            Some(_) => Err(self.miscounted()),
        }
    }

    // Whether no more than `most` fields are left.
    // Stays a loop: it reads no more than `most` of them, where a count would go to the end of the line, and `nth` one field on.
    pub fn at_most(&self, most: usize) -> Result<(), SheetFault>
        ensures { result ≡ at_most most (left self.now) }
    {
        let mut rest = *self;
        for read in 0..most {
            if rest.next().is_none() {
                return Ok(());
            }
        }
        rest.end()
    }

    // The place where the field that is left as number `n`, counted from 0, starts; 0 where there is none.
    pub fn start_of(&self, n: usize) -> usize
        ensures { result ≡ start_of n (left self.now).fields }
    {
        let mut rest = *self;
        rest.nth(n).map_or(0, |field| field.at)
    }

    // The refusal of a line that has too few fields or too many.
    fn miscounted(&self) -> SheetFault
        ensures { result ≡ Count (left self.now).size }
    {
        SheetFault::Count {
            length: self.line.len(),
        }
    }
}

// The fields from left to right.
impl<'a> Iterator for Fields<'a> {
    type Item = Field<'a>;

    ghost next_gives = { Gives };

    ghost remaining = { item_count fields_left };

    fn next(&mut self) -> Option<Field<'a>> {
        self.need().ok()
    }
}

// The field of a line that starts at a place, and where the one after it starts, if there is one.
fn cut(line: &[u8], at: usize) -> (Field, Option<usize>)
    ensures { parts at (drop at line.now) ≡ plain result.0 ∷ fields_from result.1 line.now }
{
    let rest = skip(line, at);
    let width = up_to(rest, b'\t');
    let field = Field {
        text: &rest[..width],
        at,
    };
    (field, (width < rest.len()).then(|| at + width + 1))
}
