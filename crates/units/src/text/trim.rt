// Blanks at the ends of bytes.
ghost use Rattle.std.specs.Prelude.{◌≡◌, ◌≤◌, length, reverse};
ghost use Rattle.std.specs.List.{take_while};
ghost use Rattle.units.specs.Text.{is_blank as blank_of, without_blanks_before, without_trailing_blanks, trimmed, content_of};

use memchr::memchr;

/// Returns whether the byte is a space, a tab or a CR.
pub fn is_blank(byte: u8) -> bool
    ensures { result ≡ blank_of byte }
{
    byte == b' ' || byte == b'\t' || byte == b'\r'
}

fn blanks_before(bytes: &[u8]) -> usize
    ensures { result ≡ length (take_while blank_of bytes.now) }
{
    bytes.iter().take_while(|b| is_blank(**b)).count()
}

fn blanks_after(bytes: &[u8]) -> usize
    ensures { result ≡ length (take_while blank_of (reverse bytes.now)) }
{
    bytes.iter().rev().take_while(|b| is_blank(**b)).count()
}

/// Returns the bytes without the blanks in front.
pub fn trim_start(bytes: &[u8]) -> &[u8]
    ensures rest { result.now ≡ without_blanks_before bytes.now }
    ensures short { length result.now ≤ length bytes.now }
{
    &bytes[blanks_before(bytes)..]
}

/// Returns the bytes without the blanks at the end.
pub fn trim_end(bytes: &[u8]) -> &[u8]
    ensures rest { result.now ≡ without_trailing_blanks bytes.now }
    ensures short { length result.now ≤ length bytes.now }
{
    &bytes[..bytes.len() - blanks_after(bytes)]
}

/// Returns the bytes without the blanks at both ends.
pub fn trim(bytes: &[u8]) -> &[u8]
    ensures rest { result.now ≡ trimmed bytes.now }
    ensures short { length result.now ≤ length bytes.now }
{
    trim_end(trim_start(bytes))
}

/// Returns the bytes before the first `#`, without the blanks at their ends.
pub fn content(line: &[u8]) -> &[u8]
    ensures content { result.now ≡ content_of line.now }
    ensures short { length result.now ≤ length line.now }
{
    match memchr(b'#', line) {
        None => trim(line),
        Some(at) => trim(&line[..at]),
    }
}
