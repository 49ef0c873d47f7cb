// The cells of a line: what each rule changed at a position.
ghost use Rattle.std.specs.Prelude.{◌≡◌, Some};
ghost use Rattle.explain.specs.Cells.{cell_text, class_cell, explicit_cell, level_cell};

use std::fmt;
use units::class::Class;
use units::level::Level;

/// The entry of a position for a rule.
#[derive(Clone, Copy)]
pub enum Cell {
    /// The rule changed nothing.
    Same,
    /// The position was removed (X9).
    Removed,
    /// The class after the rule.
    Class(Class),
    /// The level after the rule.
    Level(Level),
}

impl fmt::Display for Cell {
    ghost output = { λ cell. Some (cell_text cell) };

    fn fmt<W: fmt::Write>(&self, f: &mut fmt::Formatter<W>) -> fmt::Result {
        match self {
            Cell::Same => f.write_str("."),
            Cell::Removed => f.write_str("x"),
            Cell::Class(class) => f.write_str(class.short()),
            Cell::Level(level) => write!(f, "{}", level.get()),
        }
    }
}

/// Returns the cell of the level after X1 to X9.
pub fn explicit_cell(level: Option<Level>) -> Cell
    ensures { result ≡ explicit_cell level }
{
    match level {
        Some(level) => Cell::Level(level),
        None => Cell::Removed,
    }
}

/// Returns the cell of a rule that changes classes. `remains` says whether the position remains after X9.
pub fn class_cell(remains: bool, before: Class, after: Class) -> Cell
    ensures { result ≡ class_cell remains before after }
{
    if remains && before != after {
        return Cell::Class(after);
    }
    Cell::Same
}

/// Returns the cell of a rule that changes levels.
pub fn level_cell(before: Option<Level>, after: Option<Level>) -> Cell
    ensures { result ≡ level_cell before after }
{
    match (before, after) {
        (Some(before), Some(after)) if before.get() != after.get() => Cell::Level(after),
        _ => Cell::Same,
    }
}
