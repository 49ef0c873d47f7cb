// Bytes cut after the last complete character.
ghost use Rattle.std.specs.Prelude.{◌≡◌, ◌≤◌, drop, length, take};
ghost use Rattle.printing.specs.ReadTexts.{utf8_front};

/// The most bytes that a character takes in UTF-8.
const LONGEST_CHARACTER: usize = 4;

/// Returns the longest front of these bytes that is UTF-8.
pub(crate) fn utf8_front(bytes: &[u8]) -> &str
    ensures { result.now ≡ utf8_front bytes.now }
{
    match bytes.utf8_chunks().next() {
        Some(chunk) => chunk.valid(),
        None => "",
    }
}

/// Moves the first bytes that were not taken, at most as many as a character can have, to the front of the buffer.
/// Returns how many bytes it moved.
pub(crate) fn hold(buffer: &mut [u8], taken: usize, filled: usize) -> usize
    requires taken { taken ≤ filled }
    requires filled { filled ≤ length buffer.old }
    ensures len { length buffer.new ≡ length buffer.old }
    ensures few { result ≤ 4 }
    ensures stored { take result buffer.new ≡ take 4 (drop taken (take filled buffer.old)) }
{
    let stored = LONGEST_CHARACTER.min(filled - taken);
    buffer.copy_within(taken..taken + stored, 0);
    stored
}
