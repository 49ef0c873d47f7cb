// The text with a number among all texts of its length.
ghost use Rattle.std.specs.Prelude.{◌≡◌, ◌<◌, length};
ghost use Rattle.rows.specs.Exhaustive.{text_of_number};

use crate::letter::Letter;

/// Fills `text` with the text of its length that has this number, from its last place to its first.
pub fn fill_text(alphabet: &[Letter], number: usize, text: &mut [Letter])
    requires { 0 < length alphabet.now }
    ensures length { length text.new ≡ length text.old }
    ensures text { text.new ≡ text_of_number alphabet.now (length text.old) number }
{
    let len = text.len();
    let mut rest = number;
    for done in 0..len {
        text[len - 1 - done] = alphabet[rest % alphabet.len()];
        rest /= alphabet.len();
    }
}
