// The run of a whole sheet.
ghost use Rattle.places.specs.Laid.{laid};
ghost use Rattle.sheet.specs.Sheet.{sheet, finish};
ghost use Rattle.std.specs.Prelude.{◌≡◌, ◌*◌, ◌≤◌, true, ◌++◌, length, take, is_ok, MatchResult};
ghost use Rattle.text.specs.Lines.{lines};

use crate::answers::say;
use crate::bench::Bench;
use output::Output;
use refusals::SheetFault;
use text::lines::Lines;

// Why a sheet was not run to its end, and how many bytes of its answers stand.
#[derive(Clone, Copy, Debug, PartialEq, Eq)]
pub struct Unfinished {
    pub kept: usize,
    pub fault: SheetFault,
}

// Answers a sheet into the space given, line by line, and says how many bytes that took. Where a line's answer does
// not fit, it is taken back whole, and the sheet ends there; 28 bytes for each line are always enough.
// Stays a slice and a count of what is said: the space is the caller's, and there is no heap.
pub fn run(input: &[u8], out: &mut [u8]) -> Result<usize, Unfinished>
    ensures ends { result ≡ finish (sheet input.now (length out.old)) }
    ensures out { out.new ≡ laid out.old 0 ((sheet input.now (length out.old)).said ++ (sheet input.now (length out.old)).lost) }
    ensures front { take (length (sheet input.now (length out.old)).said) out.new ≡ (sheet input.now (length out.old)).said }
    ensures within { MatchResult result (λ n. n ≤ length out.old) (λ e. e.kept ≤ length out.old) }
    ensures fits { 28 * length (lines input.now) ≤ length out.old → is_ok result ≡ true }
{
    let mut bench = Bench::empty();
    // Stays a counter of its own: numbers go round after 65,535, which a cast of what `enumerate` counts says less plainly.
    let mut number: u16 = 0;
    let mut output = Output { bytes: out, len: 0 };
    for line in Lines::of(input) {
        let answer = bench.obey(line, number);
        say(&mut output, answer).map_err(|_| Unfinished {
            kept: output.len,
            fault: SheetFault::Room,
        })?;
        number = number.wrapping_add(1);
    }
    Ok(output.len)
}
