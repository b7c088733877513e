// The lines of a sheet, and which of them are let in.
ghost use Rattle.std.specs.Prelude.{◌≡◌, ◌<◌, ◌≤◌, ◌∷◌, length, OnOk};
ghost use Rattle.std.specs.Iterator.{YieldsFirstRef, item_count};
ghost use Rattle.std.specs.List.{prefix_len};
ghost use Rattle.text.specs.Lines.{lines, lines_left, first_line, after_line, fine, admitted};

use crate::scan::{skip, up_to};
use refusals::SheetFault;

// The bytes that a line may have at most.
const LONGEST: usize = 200;

// A line, and what comes after its line feed.
#[derive(Clone, Copy, Debug, PartialEq, Eq)]
pub struct Split<'a> {
    pub line: &'a [u8],
    pub rest: &'a [u8],
}

// The first line: all before the first line feed, or all of the input where there is none.
pub fn split_line(input: &[u8]) -> Split
    ensures line { result.line.now ≡ first_line input.now }
    ensures rest { result.rest.now ≡ after_line input.now }
    ensures all { 0 < length input.now → lines input.now ≡ result.line.now ∷ lines result.rest.now }
    ensures shorter { 0 < length input.now → length result.rest.now < length input.now }
{
    let end = up_to(input, b'\n');
    Split {
        line: &input[..end],
        rest: skip(skip(input, end), 1),
    }
}

// The lines of a text, from the first to the last.
#[derive(Clone, Copy, Debug, PartialEq, Eq)]
pub struct Lines<'a> {
    rest: &'a [u8],
}

impl<'a> Lines<'a> {
    // Stays beside `From`: the text is not turned into lines, a reader of it is set up.
    pub fn of(text: &'a [u8]) -> Lines<'a>
        ensures { lines_left result ≡ lines text.now }
    {
        Lines { rest: text }
    }
}

impl<'a> Iterator for Lines<'a> {
    type Item = &'a [u8];

    ghost next_gives = { YieldsFirstRef lines_left };

    ghost remaining = { item_count lines_left };

    fn next(&mut self) -> Option<&'a [u8]> {
        if self.rest.is_empty() {
            return None;
        }
        let Split { line, rest } = split_line(self.rest);
        self.rest = rest;
        Some(line)
    }
}

// How many lines there are.
pub fn count_lines(input: &[u8]) -> usize
    ensures { result ≡ length (lines input.now) }
{
    Lines::of(input).count()
}

// Lets a line in that is short enough and has only tabs and printable signs.
pub fn admit(line: &[u8]) -> Result<(), SheetFault>
    ensures answer { result ≡ admitted line.now }
    ensures short { OnOk result (length line.now ≤ 200) }
{
    let good = fine_front(line);
    if line.len() <= LONGEST && good == line.len() {
        Ok(())
    } else {
        Err(SheetFault::Bytes {
            place: good.min(LONGEST),
        })
    }
}

// The bytes before the first that no line may have.
fn fine_front(line: &[u8]) -> usize
    ensures count { result ≡ prefix_len fine line.now }
    ensures within { result ≤ length line.now }
{
    line.iter().take_while(|b| is_fine(**b)).count()
}

// Whether a line may have this byte: a tab, or a printable sign.
fn is_fine(b: u8) -> bool
    ensures { result ≡ fine b }
{
    matches!(b, b'\t' | 0x20..=0x7e)
}
