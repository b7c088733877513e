//! The output of a program that answers a file of lines.
//!
//! The caller lends the bytes. A line is written through a guard: one that does not fit is taken back whole, and the lines before it stand.

#![tactic(auto)]

ghost use Rattle.std.specs.Prelude.{◌≡◌, ◌/◌, ◌%◌, ◌^◌, ◌<◌, [], ◌∷◌, ◌++◌, decimal as decimal_text};
ghost use Rattle.output.specs.Hex.{hex as hex_text, sign};
ghost use Rattle.output.specs.Pour.{Said};
ghost use Rattle.output.specs.Puts.{Puts};

/// The bytes have no room for all of the text.
#[derive(Clone, Copy, Debug, PartialEq, Eq)]
pub struct NoRoom;

/// The bytes that a caller lends, and how many of the first of them are said so far.
// Stays without a ghost field that bounds the length: tried, and behind one the check does not follow what a line leaves in
// the bytes.
#[derive(Drop)]
pub struct Output<'a> {
    pub bytes: &'a mut [u8],
    pub len: usize,
}

impl Output<'_> {
    // Stays a line opened and kept, as the sheet's other answers: what writes a line could not be a parameter without a `requires`.
    /// Says the text as a line of its own.
    pub fn say_line(&mut self, text: &[u8]) -> Result<(), NoRoom>
        ensures { Said (text.now ++ (10 ∷ [])) result self.old self.new }
    {
        let mut line = Line::open(self.bytes, &mut self.len);
        line.text(text)?;
        line.put(b'\n')?;
        line.keep();
        Ok(())
    }
}

/// A line that is being written. Let go before it is kept, it is taken back.
// Stays over the two parts of an output: tried over a `&mut Output`, and after the guard is gone the check knows nothing of the
// output any more, since that borrows itself.
pub struct Line<'a> {
    bytes: &'a mut [u8],
    len: &'a mut usize,
    start: usize,
}

impl Drop for Line<'_> {
    fn drop(self)
        ensures len { self.exit.1.0.now ≡ self.entry.start }
        ensures bytes { self.exit.0.now ≡ self.entry.bytes.now }
    {
        let Line {
            bytes: _,
            len,
            start,
        } = self;
        *len = start;
    }
}

impl<'a> Line<'a> {
    /// A line that starts at the length so far.
    pub fn open(bytes: &'a mut [u8], len: &'a mut usize) -> Line<'a>
        ensures bytes { result.bytes.now ≡ bytes.old }
        ensures len { result.len.now ≡ len.old }
        ensures start { result.start ≡ len.old }
        ensures lent { (result.bytes.ghost_name ≡ bytes.entry.ghost_name) × (result.len.ghost_name ≡ len.entry.ghost_name) }
    {
        let start = *len;
        Line { bytes, len, start }
    }

    // Stays apart from the push of a list over lent places: here the length is the output's, and the refusal another.
    /// Writes one byte.
    pub fn put(&mut self, b: u8) -> Result<(), NoRoom>
        ensures { Puts (b ∷ []) result self.old self.new }
    {
        if *self.len < self.bytes.len() {
            self.bytes[*self.len] = b;
            *self.len += 1;
            Ok(())
        } else {
            Err(NoRoom)
        }
    }

    /// Writes the text.
    pub fn text(&mut self, text: &[u8]) -> Result<(), NoRoom>
        ensures { Puts text.now result self.old self.new }
    {
        // Past the end of the bytes there is no room even for an empty text.
        if *self.len > self.bytes.len() {
            return Err(NoRoom);
        }
        for b in text {
            self.put(*b)?;
        }
        Ok(())
    }

    // Stays apart from `write!`, for `decimal` too: that tells nothing of what a refused text leaves in the bytes.
    /// Writes the low hex digits of `n`, `width` of them.
    pub fn hex(&mut self, width: u32, n: u64) -> Result<(), NoRoom>
        ensures { Puts (hex_text width n) result self.old self.new }
    {
        if *self.len > self.bytes.len() {
            return Err(NoRoom);
        }
        for right in (0..width).rev() {
            self.put(sign_of(digit_at(n, right)))?;
        }
        Ok(())
    }

    // Stays a cast where a digit becomes a byte, here and below: that it fits is proved, and `try_from` would be no plainer.
    /// Writes `n` in decimal, with no zero in front.
    pub fn decimal(&mut self, n: usize) -> Result<(), NoRoom>
        ensures { Puts (decimal_text n) result self.old self.new }
    {
        if n < 10 {
            return self.put(b'0' + n as u8);
        }
        self.decimal(n / 10)?;
        self.put(b'0' + (n % 10) as u8)
    }

    /// Lets the line stand.
    pub fn keep(self)
        ensures len { self.exit.1.0.now ≡ self.entry.len.now }
        ensures bytes { self.exit.0.now ≡ self.entry.bytes.now }
    {
        // Taken apart, the line has nothing left to take back.
        let Line {
            bytes: _,
            len: _,
            start: _,
        } = self;
    }
}

/// The hex digit of `n` that has `right` digits to its right; above the sixteenth there are only zeros.
fn digit_at(n: u64, right: u32) -> u8
    ensures { result ≡ n / 16 ^ right % 16 }
{
    if right < 16 {
        ((n >> (4 * right)) % 16) as u8
    } else {
        0
    }
}

/// The sign of a hex digit.
fn sign_of(digit: u8) -> u8
    requires { digit < 16 }
    ensures { result ≡ sign digit }
{
    if digit < 10 {
        b'0' + digit
    } else {
        b'A' + (digit - 10)
    }
}
