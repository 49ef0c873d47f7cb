// The text that `levels` prints, from a layout.
ghost use Rattle.std.specs.Prelude.{◌≡◌, ◌≤◌, ◌+◌, length, map, slice_index_or, IfErr, OnOk};
ghost use Rattle.std.specs.Io.KnownBytes.{Appends};
ghost use Rattle.units.specs.Isolates.{level_of_para};
ghost use Rattle.units.specs.Layout.{longest_text};
ghost use Rattle.lines.specs.Layouts.{view_of};
ghost use Rattle.printing.specs.Following.{one_paragraph_after, position_after};
ghost use Rattle.printing.specs.LevelsText.{printed};

use crate::output::Output;
use crate::passed::Passed;
use crate::position_line::{print_paragraph, print_position};
use lines::layout::Layout;
use std::io;
use units::bracket::Unit;
use units::level::{Level, ParaLevel};

/// Writes the lines of the positions of a paragraph, from its characters, units and levels after L1. The paragraph
/// comes after `passed`.
fn print_positions<W: Output>(
    w: &mut W,
    passed: Passed,
    chars: &[char],
    text: &[Unit],
    levels: &[Option<Level>],
) -> io::Result<()>
    requires units { length text.now ≡ length chars.now }
    requires levels { length levels.now ≡ length chars.now }
    requires small { passed.characters + length chars.now ≤ longest_text }
    ensures written { OnOk result (Appends (W.contents w.old) (W.contents w.new)
        (printed (position_after passed chars.now text.now levels.now) 0 (length chars.now))) }
    ensures failed { IfErr result (W.failed_with w.new) }
{
    for p in 0..chars.len() {
        print_position(w, passed.characters + p, chars[p], text[p].class, levels[p])?;
    }
    Ok(())
}

fn level_of_first(paras: &[ParaLevel]) -> ParaLevel
    ensures { level_of_para result ≡ slice_index_or (map level_of_para paras.now) 0 0 }
{
    match paras.first() {
        Some(level) => *level,
        None => ParaLevel::Zero,
    }
}

/// Writes the line of a paragraph and then the lines of its positions, from its layout. The paragraph comes after
/// `passed`.
pub(crate) fn print_one_paragraph<W: Output>(
    w: &mut W,
    passed: Passed,
    chars: &[char],
    text: &[Unit],
    layout: &Layout<'_>,
) -> io::Result<()>
    requires units { length text.now ≡ length chars.now }
    requires levels { length (view_of layout.now).levels ≡ length chars.now }
    requires small { passed.characters + length chars.now ≤ longest_text }
    ensures written { OnOk result (Appends (W.contents w.old) (W.contents w.new)
        (one_paragraph_after passed (slice_index_or (view_of layout.now).paras 0 0)
        chars.now text.now (view_of layout.now).levels)) }
    ensures failed { IfErr result (W.failed_with w.new) }
{
    print_paragraph(w, passed.paragraphs, level_of_first(layout.para_levels()))?;
    print_positions(w, passed, chars, text, layout.levels())
}
