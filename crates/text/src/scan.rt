// Where a text is cut.
ghost use Rattle.std.specs.Prelude.{◌≡◌, ◌≤◌, length, drop};
ghost use Rattle.std.specs.List.{prefix_len};
ghost use Rattle.text.specs.Scan.{other};

// The bytes before the first `mark`: all of them where there is none.
pub(crate) fn up_to(text: &[u8], mark: u8) -> usize
    ensures count { result ≡ prefix_len (other mark) text.now }
    ensures within { result ≤ length text.now }
{
    text.iter().take_while(|b| **b != mark).count()
}

// The text without its first `n` bytes: nothing where it has no more.
pub(crate) fn skip(text: &[u8], n: usize) -> &[u8]
    ensures { result.now ≡ drop n text.now }
{
    text.get(n..).unwrap_or(&[])
}
