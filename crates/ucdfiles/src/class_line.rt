// One line of DerivedBidiClass.txt.
ghost use Rattle.std.specs.Prelude.{◌≡◌, ◌≤◌, IfOk};
ghost use Rattle.units.specs.ClassNames.{class_of_short};
ghost use Rattle.units.specs.Text.{fields_of};
ghost use Rattle.ucdfiles.specs.ClassFile.{class_of_name, comment_says, range_read, range_in, class_line_says};
ghost use Rattle.ucdfiles.specs.Statements.{IsRisingLine};

use crate::fault::Fault;
use crate::span::{FileLine, Span};
use units::class::Class;
use units::line_cut::LONGEST_LINE;
use units::text::code_point::ends;
use units::text::cut::{cut, two_fields};
use units::text::trim::{content, trim, trim_start};

// Returns the class with this short or long name.
fn class_named(name: &[u8]) -> Option<Class>
    ensures { result ≡ class_of_name name.now }
{
    Class::from_short(name).or(Class::from_long(name))
}

fn range_of(ends: Option<(u32, u32)>, class: Option<Class>) -> Result<Span<Class>, Fault>
    ensures value { range_read ends class ≡ result }
    ensures rising { IfOk result (λ span. span.first ≤ span.last) }
{
    let (first, last) = ends.ok_or(Fault::CodePoint)?;
    if last < first {
        return Err(Fault::Backwards);
    }
    let value = class.ok_or(Fault::ClassName)?;
    Ok(Span { first, last, value })
}

fn data_line(content: &[u8]) -> Result<Span<Class>, Fault>
    ensures value { range_in class_of_short (fields_of content.now) ≡ result }
    ensures rising { IfOk result (λ span. span.first ≤ span.last) }
{
    let (range, name) = two_fields(content).ok_or(Fault::Fields)?;
    range_of(ends(range), Class::from_short(name))
}

fn default_line(content: &[u8]) -> Result<Span<Class>, Fault>
    ensures value { range_in class_of_name (fields_of content.now) ≡ result }
{
    let (range, name) = two_fields(content).ok_or(Fault::Fields)?;
    range_of(ends(range), class_named(name))
}

fn comment_line(comment: &[u8]) -> FileLine<Class>
    ensures value { comment_says comment.now ≡ result }
    ensures rising { IsRisingLine result }
{
    match comment.strip_prefix(b"@missing:") {
        None => FileLine::Silent,
        Some(rest) => match default_line(content(rest)) {
            Ok(span) => FileLine::Default(span),
            Err(fault) => FileLine::Faulty(fault),
        },
    }
}

/// Returns what a line of DerivedBidiClass.txt states.
pub fn class_line(line: &[u8]) -> FileLine<Class>
    ensures value { class_line_says line.now ≡ result }
    ensures rising { IsRisingLine result }
{
    if line.len() > LONGEST_LINE {
        return FileLine::Faulty(Fault::LineTooLong);
    }
    let (before, comment) = cut(line, b'#');
    let content = trim(before);
    if content.is_empty() {
        return match comment {
            None => FileLine::Silent,
            Some(comment) => comment_line(trim_start(comment)),
        };
    }
    match data_line(content) {
        Ok(span) => FileLine::Data(span),
        Err(fault) => FileLine::Faulty(fault),
    }
}
