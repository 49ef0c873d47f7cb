// The text with a number among the drawn ones.
ghost use Rattle.std.specs.Prelude.{◌≡◌, ◌≤◌, ◌<◌, length, take};
ghost use Rattle.rand_pcg.specs.Pcg.{pcg32};
ghost use Rattle.rows.specs.Random.{letter_drawn, text_drawn, text_of_draw};

use crate::letter::Letter;
use crate::random::Random;
use rand_core::utils::NextWord;
use rand_pcg::Pcg32;

/// Draws a letter with the next word of the generator.
fn draw_letter(alphabet: &[Letter], rng: &mut Pcg32) -> Letter
    requires { 0 < length alphabet.now }
    ensures letter { result ≡ letter_drawn alphabet.now (pcg32 rng.old).0 }
    ensures following { rng.new ≡ (pcg32 rng.old).1 }
{
    let word = rng.next_word();
    alphabet[word as usize % alphabet.len()]
}

/// Fills a text with letters, drawn one after another.
fn draw_letters(alphabet: &[Letter], rng: &mut Pcg32, text: &mut [Letter])
    requires { 0 < length alphabet.now }
    ensures { text.new ≡ text_drawn alphabet.now rng.old (length text.old) }
{
    for place in 0..text.len() {
        text[place] = draw_letter(alphabet, rng);
    }
}

/// Draws the text with this number into the front of `row`, and returns its length.
pub fn draw_text(texts: &Random<'_>, number: usize, row: &mut [Letter]) -> usize
    requires { texts.now.greatest ≤ length row.old }
    ensures fits { result ≤ texts.now.greatest }
    ensures text { take result row.new ≡ text_of_draw texts.now number }
    ensures row { length row.new ≡ length row.old }
{
    let mut rng = Pcg32::new(texts.seed(), number as u64);
    let lengths = texts.greatest() - texts.least() + 1;
    let len = texts.least() + rng.next_word() as usize % lengths;
    draw_letters(texts.alphabet(), &mut rng, &mut row[..len]);
    len
}
