//! Lays out units in a scratch that has capacity for them.
ghost use Rattle.std.specs.Prelude.{◌≡◌, ◌<◌, ◌≤◌, [], length, IfSome};
ghost use Rattle.units.specs.Classes.{classes_of};
ghost use Rattle.units.specs.Layout.{layout_of};
ghost use Rattle.units.specs.Limits.{standard};
ghost use Rattle.units.specs.declared.level.Direction.TheVariants.{Auto};
ghost use Rattle.paragraph.specs.ClassSets.{IsSetOf};
ghost use Rattle.lines.specs.Scratches.{room_of, layout_in, HoldsSomeLayoutOf, HoldsText, HasSetLines, IsFilled};
ghost use Rattle.lines.specs.Scratches.{StillHoldsText};
ghost use Rattle.room.specs.OrderedLines.{LinesHaveOrder};

use lines::breaks::Breaks;
use lines::lay_out::set_lines_into;
use lines::scratch::Scratch;
use paragraph::class_set::ClassSet;
use std::marker::Brand;
use std::sync::ledger::{Blank, Ledger};
use units::bracket::Unit;
use units::level::Direction;
use units::limits::Limits;
use units::steps::Steps;

/// Lays out a text with these limits, and counts steps only during the call. The set of the classes of the text is
/// given if it is known.
pub(crate) fn lay_out_units<L: Ledger>(
    scratch: &mut Scratch,
    text: &[Unit],
    classes: Option<ClassSet>,
    direction: Direction,
    breaks: &Breaks,
    limits: Limits,
    blank: Blank,
)
    requires classes { IfSome classes (λ set. IsSetOf set (classes_of text.now)) }
    requires len { breaks.now.len ≡ length text.now }
    requires fits { length text.now ≤ room_of scratch.old }
    requires name { blank.name ≡ L.name }
    requires parts { blank.parts ≡ L.parts }
    requires some { 0 < blank.parts }
    ensures room { room_of scratch.new ≡ room_of scratch.old }
    ensures filled { IsFilled scratch.new }
    ensures laid_out { layout_in scratch.new ≡ layout_of limits text.now direction breaks.now.positions }
    ensures holds { HoldsText limits text.now direction scratch.new }
    ensures in_order { LinesHaveOrder (layout_in scratch.new) }
{
    let mut steps = Steps::<L>::new(blank);
    scratch.fill_known(text, classes, direction, breaks, limits, &mut steps);
}

/// Breaks the text of the scratch into lines again.
pub(crate) fn set_lines_of_units(scratch: &mut Scratch, text: &[Unit], breaks: &Breaks)
    requires len { breaks.now.len ≡ length text.now }
    requires holds { HoldsSomeLayoutOf text.now scratch.old }
    ensures room { room_of scratch.new ≡ room_of scratch.old }
    ensures filled { IsFilled scratch.new }
    ensures laid_out { HasSetLines text.now breaks.now.positions scratch.old (layout_in scratch.new) }
    ensures holds { StillHoldsText text.now scratch.old scratch.new }
    ensures in_order { LinesHaveOrder (layout_in scratch.new) }
{
    set_lines_into(scratch, text, breaks);
}

/// Lays out an empty text, which fits in any scratch.
pub(crate) fn lay_out_empty(scratch: &mut Scratch)
    ensures room { room_of scratch.new ≡ room_of scratch.old }
    ensures filled { IsFilled scratch.new }
    ensures empty { layout_in scratch.new ≡ layout_of standard [] Auto [] }
    ensures holds { HoldsText standard [] Auto scratch.new }
    ensures in_order { LinesHaveOrder (layout_in scratch.new) }
{
    if let Ok(breaks) = Breaks::new(&[], 0) {
        let limits = Limits::standard();
        lay_out_units::<Brand>(
            scratch,
            &[],
            None,
            Direction::Auto,
            &breaks,
            limits,
            Blank::new(1),
        );
    }
}
