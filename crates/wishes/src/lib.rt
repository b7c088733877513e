// What the fields of a reach record say: how long the wish is to hold, and its ranges.

#![tactic(auto)]

ghost use Rattle.places.specs.Laid.{laid};
ghost use Rattle.text.specs.Fields.{plain, left, after as good};
ghost use Rattle.wishes.specs.Wishes.{term_in, range_in, ranges_in, readable, ranges_told, ranges_laid};
ghost use Rattle.std.specs.Prelude.{◌≡◌, ◌+◌, ◌≤◌, length, Ok};

use places::Places;
use plan::wish::Term;
use records::values::address_in;
use refusals::SheetFault;
use text::fields::{Field, Fields};
use units::Range;

// Now or kept.
// Stays a function: an impl of `TryFrom` would have to stand beside the wishes of a plan, and the words for them are the
// sheet's.
pub fn term_in(field: Field) -> Result<Term, SheetFault>
    ensures { result ≡ term_in (plain field.entry) }
{
    match field.text {
        b"now" => Ok(Term::Now),
        b"kept" => Ok(Term::Kept),
        _ => Err(field.misread()),
    }
}

// A range: six digits, a hyphen and six digits. A field may claim any place, so places stop at the largest number.
#[tactic(auto, unfolding(crate::specs::Wishes::range_in))]
pub fn range_in(field: Field) -> Result<Range, SheetFault>
    ensures { result ≡ range_in (plain field.entry) }
{
    let [_, _, _, _, _, _, hyphen, last @ ..] = field.text else {
        return Err(field.misread());
    };
    if last.len() != 6 {
        return Err(field.misread());
    }
    let first = address_in(Field {
        text: &field.text[0..6],
        ..field
    })?;
    if *hyphen != b'-' {
        return Err(SheetFault::Field {
            place: field.at.saturating_add(6),
        });
    }
    let last = address_in(Field {
        text: last,
        at: field.at.saturating_add(7),
    })?;
    Ok(Range { first, last })
}

// That every field is a range, or the first fault.
fn check(fields: Fields) -> Result<(), SheetFault>
    ensures { result ≡ good (ranges_in (left fields.entry).fields) (λ _. Ok tt) }
{
    for field in fields {
        range_in(field)?;
    }
    Ok(())
}

// Adds the ranges to the list, as far as the fields are ranges and there are places.
fn gather(fields: Fields, list: &mut Places<Range>)
    ensures after { list.new.slots.now ≡ laid list.old.slots.now list.old.len (readable (left fields.entry).fields) }
    ensures count { list.old.len + length (readable (left fields.entry).fields) ≤ length list.old.slots.now → list.new.len ≡ list.old.len + length (readable (left fields.entry).fields) }
    ensures same { list.new.slots.ghost_name ≡ list.old.slots.ghost_name }
{
    for field in fields {
        let Ok(range) = range_in(field) else {
            return;
        };
        if list.push(range).is_err() {
            return;
        }
    }
}

// Reads the ranges into the first of the places, and says how many there are. All fields are read before any place is
// written: refused, the places are as before.
// Stays places and a count: the places are the caller's, and there is no heap.
pub fn ranges_in(fields: Fields, slots: &mut [Range]) -> Result<usize, SheetFault>
    ensures answer { result ≡ ranges_told (length slots.old) (left fields.entry).fields }
    ensures after { slots.new ≡ ranges_laid (left fields.entry).fields slots.old }
{
    check(fields)?;
    fields.at_most(slots.len()).map_err(|_| SheetFault::Room)?;
    let mut list = Places::new(slots);
    gather(fields, &mut list);
    Ok(list.entries().len())
}
