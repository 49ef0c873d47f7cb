//! How much a job does.

use crate::hostile::Amount;

/// How much a job does.
#[derive(Clone, Copy)]
pub enum Size {
    /// It ends in a moment.
    Small,
    /// It takes seconds.
    Full,
}

impl Size {
    /// Returns `full` if the job is full, else `small`.
    fn of(self, small: usize, full: usize) -> usize {
        match self {
            Size::Small => small,
            Size::Full => full,
        }
    }

    /// How many documents are printed as they are shown.
    pub fn documents(self) -> usize {
        self.of(2, 1_600)
    }

    /// How many documents are printed with their levels.
    pub fn documents_with_levels(self) -> usize {
        self.of(1, 400)
    }

    /// How many characters the text has whose paragraphs are laid out.
    pub fn characters(self) -> usize {
        self.of(4_000, 3_000_000)
    }

    /// How many lines are laid out one by one.
    pub fn lines(self) -> usize {
        self.of(40, 400_000)
    }

    /// How many test files are written and read.
    pub fn row_files(self) -> usize {
        self.of(6, 240)
    }

    /// How many hostile texts are laid out, and how long they are.
    pub fn hostile(self) -> Amount {
        Amount {
            texts: self.of(9, 1_200),
            units: self.of(500, 60_000),
        }
    }
}
