// The answers to a sheet, written line by line; a line that does not fit is taken back whole.
ghost use Rattle.output.specs.Pour.{Said as Writes};
ghost use Rattle.std.specs.Prelude.{◌≤◌, length};
ghost use Rattle.sheet.specs.Answers.{seen_text, no_text, answer_text};

use crate::bench::Said;
use output::{Line, NoRoom, Output};
use refusals::SheetFault;

// Stays a line opened and kept in each: a function that takes what to write would have to tell what a closure leaves.
fn say_seen(output: &mut Output, set: u64) -> Result<(), NoRoom>
    ensures { Writes (seen_text set) result output.old output.new }
{
    let mut line = Line::open(output.bytes, &mut output.len);
    line.text(b"seen ")?;
    line.hex(16, set)?;
    line.put(b'\n')?;
    line.keep();
    Ok(())
}

fn say_no(output: &mut Output, number: u8, place: usize) -> Result<(), NoRoom>
    ensures { Writes (no_text number place) result output.old output.new }
{
    let mut line = Line::open(output.bytes, &mut output.len);
    line.text(b"no ")?;
    line.decimal(number as usize)?;
    line.put(b' ')?;
    line.decimal(place)?;
    line.put(b'\n')?;
    line.keep();
    Ok(())
}

// One answer.
pub(crate) fn say(output: &mut Output, answer: Result<Said, SheetFault>) -> Result<(), NoRoom>
    ensures text { Writes (answer_text answer) result output.old output.new }
    ensures short { length (answer_text answer) ≤ 28 }
{
    match answer {
        Ok(Said::Fine) => output.say_line(b"ok"),
        Ok(Said::Seen(set)) => say_seen(output, set),
        Ok(Said::Obeyed) => output.say_line(b"obeyed"),
        Ok(Said::Ignored) => output.say_line(b"ignored"),
        Err(fault) => say_no(output, fault.number(), fault.place()),
    }
}
