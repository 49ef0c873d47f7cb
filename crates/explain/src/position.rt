// The line of a position: what each rule changed there.
ghost use Rattle.std.specs.Prelude.{◌<◌, length, OnOk};
ghost use Rattle.std.specs.Io.KnownBytes.{Appends};
ghost use Rattle.explain.specs.PositionText.{changes_text, position_start_text, position_end_text, position_text};

use crate::cell::{class_cell, explicit_cell, level_cell};
use crate::code::Code;
use std::io;
use std::io::Write;
use units::class::Class;
use units::level::Level;

/// The levels of a position. A removed position has none.
#[derive(Clone, Copy)]
pub struct PositionLevels {
    /// After X1 to X9.
    pub explicit: Option<Level>,
    /// After I1 and I2.
    pub implicit: Option<Level>,
    /// After L1.
    pub line: Option<Level>,
}

/// Writes the cells before the rules that change classes: the position, its code point, its original class, and its
/// level after X1 to X9.
fn print_position_start<W: Write>(
    w: &mut W,
    position: usize,
    character: Option<char>,
    class: Class,
    level: Option<Level>,
) -> io::Result<()>
    ensures { OnOk result (Appends (W.contents w.old) (W.contents w.new)
        (position_start_text position character class level)) }
{
    let code = Code(character);
    let name = class.short();
    let level = explicit_cell(level);
    write!(w, "{position} {code} {name} {level}")
}

/// Writes the cells of the rules that change classes. `classes` are the original class of the position, and its class
/// after each rule.
fn print_changes<W: Write>(w: &mut W, remains: bool, classes: &[Class]) -> io::Result<()>
    requires { 0 < length classes.now }
    ensures { OnOk result (Appends (W.contents w.old) (W.contents w.new) (changes_text remains classes.now)) }
{
    for k in 1..classes.len() {
        let cell = class_cell(remains, classes[k - 1], classes[k]);
        write!(w, " {cell}")?;
    }
    Ok(())
}

/// Writes the cells after the rules that change classes: the levels after I1 and I2, and after L1.
fn print_position_end<W: Write>(w: &mut W, levels: PositionLevels) -> io::Result<()>
    ensures { OnOk result (Appends (W.contents w.old) (W.contents w.new) (position_end_text levels)) }
{
    let implicit = level_cell(levels.explicit, levels.implicit);
    let line = level_cell(levels.implicit, levels.line);
    writeln!(w, " {implicit} {line}")
}

/// Writes the line of a position of the text. `classes` are its original class, and its class after each rule in turn.
pub fn print_position<W: Write>(
    w: &mut W,
    position: usize,
    character: Option<char>,
    classes: &[Class],
    levels: PositionLevels,
) -> io::Result<()>
    requires { 0 < length classes.now }
    ensures { OnOk result (Appends (W.contents w.old) (W.contents w.new)
        (position_text position character classes.now levels)) }
{
    print_position_start(w, position, character, classes[0], levels.explicit)?;
    print_changes(w, levels.explicit.is_some(), classes)?;
    print_position_end(w, levels)
}
