//! Makes texts from a seed.
ghost use Rattle.std.specs.Prelude.{◌<◌};

use crate::script::{ARABIC, ENGLISH, NUMBERS, Script};
use rand_core::utils::NextWord;
use rand_pcg::Pcg32;
use std::io;

/// Draws numbers.
#[derive(Drop)]
pub struct TextMaker {
    rng: Pcg32,
}

/// The characters around a word.
#[derive(Clone, Copy)]
struct Around {
    before: &'static str,
    following: &'static str,
}

const GAPS: [&str; 16] = [
    " ", " ", " ", " ", " ", " ", " ", " ", " ", " ", " ", " ", ", ", ". ", " - ", "! ",
];

impl TextMaker {
    ghost use Rattle.std.specs.Prelude.{◌<◌};

    /// Makes a generator from this seed; `stream` selects one of many independent sequences.
    pub fn new(seed: u64, stream: usize) -> TextMaker {
        TextMaker {
            rng: Pcg32::new(seed, stream as u64),
        }
    }

    /// Returns a number below `bound` and below 65,536, 0 if there is none.
    pub fn below(&mut self, bound: usize) -> usize
        ensures { result < 65536 }
    {
        let word = self.rng.next_word() as usize;
        ((word >> 8) % bound.max(1)).min(65_535)
    }

    /// Returns one of 16 words.
    fn choose(&mut self, words: &[&'static str; 16]) -> &'static str {
        words[self.rng.next_word() as usize % 16]
    }

    /// Returns the characters around a word of another direction.
    fn around(&mut self, script: Script) -> Around {
        let (before, following) = match (script, self.below(8)) {
            (Script::Isolated, 0..=3) => ("\u{2068}", "\u{2069}"),
            (Script::Isolated, 4) => ("\u{2066}", "\u{2069}"),
            (Script::Embedded, 0..=2) => ("\u{202A}", "\u{202C}"),
            (Script::Embedded, 3) => ("\u{202D}", "\u{202C}"),
            (_, 5) => ("(", ")"),
            (_, 6) => ("[", "]"),
            _ => ("", ""),
        };
        Around { before, following }
    }

    /// Adds a word of another script, or a number.
    fn push_other(&mut self, script: Script, text: &mut String) -> io::Result<()> {
        let around = self.around(script);
        let word = match self.below(4) {
            0 => self.choose(&NUMBERS),
            1 => self.choose(&ARABIC),
            _ => self.choose(&ENGLISH),
        };
        text.push_str(around.before)?;
        text.push_str(word)?;
        text.push_str(around.following)?;
        Ok(())
    }

    /// Returns `n` if one of `n` words is of another script.
    fn others(script: Script) -> usize {
        match script {
            Script::English => 64,
            Script::Vowelled => 32,
            Script::Hebrew | Script::Arabic | Script::Persian => 16,
            Script::Mixed => 2,
            Script::Isolated | Script::Embedded => 4,
        }
    }

    /// Adds a word, and the gap between it and the next one.
    fn push_word(&mut self, script: Script, text: &mut String) -> io::Result<()> {
        if self.below(TextMaker::others(script)) == 0 {
            self.push_other(script, text)?;
        } else {
            text.push_str(self.choose(script.words()))?;
        }
        text.push_str(self.choose(&GAPS))?;
        Ok(())
    }

    /// Adds so many words.
    pub fn push_words(
        &mut self,
        script: Script,
        count: usize,
        text: &mut String,
    ) -> io::Result<()> {
        for _ in 0..count {
            self.push_word(script, text)?;
        }
        Ok(())
    }

    /// Adds a paragraph: mostly a short one, and at times one of hundreds of words.
    pub fn push_paragraph(&mut self, script: Script, text: &mut String) -> io::Result<()> {
        let count = match self.below(8) {
            0 => 100 + self.below(200),
            1..=3 => 20 + self.below(60),
            _ => 1 + self.below(14),
        };
        self.push_words(script, count, text)?;
        text.push('\n')?;
        Ok(())
    }
}
