//! What is printed.

use crate::stop::{Outcome, Stop, outcome_of, reported};
use crate::writer::Taking;
use explain::print::{print_explained, print_explained_classes};
use lines::breaks::Breaks;
use lines::lay_out::lay_out_into;
use lines::scratch::{MOST, Scratch};
use printing::form::Form;
use printing::print::{print_levels, print_reorder};
use printing::reading::print_source;
use rows::case_text::{print_class_case, print_positions};
use rows::letter::Letter;
use rows::naming::Naming;
use rows::print_lines::print_lines;
use rows::text_lines::first_long_line;
use std::alloc::Global;
use ucdfiles::tables::Tables;
use units::bracket::Unit;
use units::class::Class;
use units::cut_source::CutSource;
use units::level::Direction;
use units::slice_source::SliceSource;
use units::source::ByteSource;

/// What is printed.
#[derive(Clone, Copy)]
pub enum Printed<'a> {
    /// A text in a form.
    Text {
        chars: &'a [char],
        form: Form,
    },
    /// The text of a source, in a form. The source fails after so many bytes, if there is such a number.
    Source {
        bytes: &'a [u8],
        failing_after: Option<usize>,
        form: Form,
    },
    /// What the rules do to a text.
    Explained {
        chars: &'a [char],
    },
    /// What the rules do to classes.
    ExplainedClasses {
        classes: &'a [Class],
    },
    /// The lines of a text in a file of classes.
    ClassLines {
        letters: &'a [Letter],
        units: &'a [Unit],
    },
    /// The rows of a text in a file of characters, under each of these directions.
    CharacterRows {
        chars: &'a [char],
        directions: &'a [Direction],
    },
    /// Positions, each after a blank.
    Positions {
        order: &'a [usize],
    },
}

/// The tables and the direction with which a text is printed.
#[derive(Clone, Copy)]
pub struct Setting<'a> {
    pub alloc: Global,
    pub tables: &'a Tables,
    pub direction: Direction,
}

impl Setting<'_> {
    /// Prints a text in a form.
    fn print_text(&self, w: &mut Taking, chars: &[char], form: Form) -> Outcome {
        if chars.len() > MOST {
            return Err(Stop::TooLong);
        }
        outcome_of(match form {
            Form::Levels => print_levels(self.alloc, w, self.tables, chars, self.direction),
            Form::Reorder { columns } => print_reorder(
                self.alloc,
                w,
                self.tables,
                chars,
                self.direction,
                columns,
            ),
        })
    }

    /// Prints the text of a source in a form.
    fn print_read<S: ByteSource>(&self, w: &mut Taking, source: &mut S, form: Form) -> Outcome {
        if source.most_remaining() > MOST as u64 {
            return Err(Stop::TooLong);
        }
        match print_source(self.alloc, w, self.tables, source, self.direction, form) {
            Ok(()) => Ok(()),
            Err(fault) => Err(Stop::Fault(fault, source.most_remaining())),
        }
    }

    /// Prints the text of these bytes in a form, while it is read.
    fn print_bytes(
        &self,
        w: &mut Taking,
        bytes: &[u8],
        failing_after: Option<usize>,
        form: Form,
    ) -> Outcome {
        match failing_after {
            None => self.print_read(w, &mut SliceSource::new(bytes), form),
            Some(count) => {
                let count = count.min(bytes.len());
                self.print_read(w, &mut CutSource::new(bytes, count), form)
            }
        }
    }

    /// Prints what the rules do to a text.
    fn explain_text(&self, w: &mut Taking, chars: &[char]) -> Outcome {
        if chars.len() > MOST {
            return Err(Stop::TooLong);
        }
        outcome_of(print_explained(self.alloc, w, self.tables, chars, self.direction))
    }

    /// Prints what the rules do to classes.
    fn explain_classes(&self, w: &mut Taking, classes: &[Class]) -> Outcome {
        if classes.len() > MOST {
            return Err(Stop::TooLong);
        }
        outcome_of(print_explained_classes(self.alloc, w, classes, self.direction))
    }

    /// Prints the lines of a text in a file of classes.
    fn print_class_lines(&self, w: &mut Taking, letters: &[Letter], units: &[Unit]) -> Outcome {
        let Ok(mut room) = Scratch::with_room(self.alloc, units.len()) else {
            return Err(Stop::TooLong);
        };
        let Ok(breaks) = Breaks::new(&[], units.len()) else {
            return Err(Stop::TooLong);
        };
        match lay_out_into(&mut room, units, self.direction, &breaks) {
            Ok(()) => reported(print_class_case(w, letters, self.direction, &room.layout())),
            Err(_) => Err(Stop::TooLong),
        }
    }

    /// Prints the rows of a text in a file of characters.
    fn print_character_rows(
        &self,
        w: &mut Taking,
        chars: &[char],
        directions: &[Direction],
    ) -> Outcome {
        if first_long_line(chars).is_some() {
            return Err(Stop::TooLong);
        }
        let naming = Naming::Codes(self.tables);
        outcome_of(print_lines(self.alloc, w, naming, chars, directions))
    }

    /// Prints to a writer.
    pub fn print(&self, w: &mut Taking, printed: Printed<'_>) -> Outcome {
        match printed {
            Printed::Text { chars, form } => self.print_text(w, chars, form),
            Printed::Source {
                bytes,
                failing_after,
                form,
            } => self.print_bytes(w, bytes, failing_after, form),
            Printed::Explained { chars } => self.explain_text(w, chars),
            Printed::ExplainedClasses { classes } => self.explain_classes(w, classes),
            Printed::ClassLines { letters, units } => self.print_class_lines(w, letters, units),
            Printed::CharacterRows { chars, directions } => self.print_character_rows(
                w, chars, directions,
            ),
            Printed::Positions { order } => reported(print_positions(w, order)),
        }
    }
}

impl Printed<'_> {
    /// Returns whether an error of the writer is returned as it is.
    pub fn reports_errors(self) -> bool {
        matches!(self, Printed::ClassLines { .. } | Printed::Positions { .. })
    }

    /// Returns whether all bytes are passed to the writer even if one call fails. Such a failure, which has passed by
    /// the next call, isn't returned.
    pub fn writes_all(self) -> bool {
        !matches!(
            self,
            Printed::ClassLines { .. } | Printed::CharacterRows { .. }
        )
    }

    /// Returns whether it is a text as it is shown, whose characters a row names by their code points.
    pub fn is_shown(self) -> bool {
        match self {
            Printed::Text { form, .. } | Printed::Source { form, .. } => form != Form::Levels,
            _ => false,
        }
    }
}
