// The code point of a character, if it is known.
ghost use Rattle.std.specs.Prelude.{Some};
ghost use Rattle.explain.specs.Cells.{code_cell};

use std::fmt;

/// A character, shown as its code point in upper-case hex digits, at least four, or as `-` if it is not known.
#[derive(Clone, Copy)]
pub struct Code(pub Option<char>);

impl fmt::Display for Code {
    ghost output = { λ code. Some (code_cell code.0) };

    fn fmt<W: fmt::Write>(&self, f: &mut fmt::Formatter<W>) -> fmt::Result {
        match self.0 {
            Some(character) => {
                let code = u32::from(character);
                write!(f, "{code:04X}")
            }
            None => f.write_str("-"),
        }
    }
}
