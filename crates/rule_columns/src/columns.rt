//! The results of the rules for one paragraph, rule by rule.
ghost use Rattle.std.specs.Prelude.{◌≡◌, ◌<◌, ◌≤◌, length, IfOk};
ghost use Rattle.units.specs.Layout.{longest_text};
ghost use Rattle.units.specs.Paragraphs.{SeparatorOnlyLast};
ghost use Rattle.rule_columns.specs.Columns.{HaveLength, columns_of};
ghost use Rattle.rule_columns.specs.Inside.{NamesInside};

use crate::classes_part::ClassesPart;
use crate::current::current_classes;
use crate::explicit_part::ExplicitPart;
use crate::rule::Rule;
use crate::shown_part::ShownPart;
use sequences::sequences::Sequences;
use std::alloc::Global;
use std::marker::{Brand, Model};
use std::sync::ledger::{Blank, Ledger};
use units::bracket::Unit;
use units::class::Class;
use units::level::{Direction, Level, ParaLevel};
use units::memory::Memory;
use units::steps::Steps;

/// The results of the rules for one paragraph, rule by rule, in columns with an item for each position.
#[derive(Drop)]
pub struct Columns {
    explicit: ExplicitPart,
    classes: ClassesPart,
    shown: ShownPart,
}

impl Model for Columns {
    ghost use Rattle.rule_columns.specs.Columns.{ColumnsOf, explicit_view};

    ghost Value = { ColumnsOf };

    ghost view = { λ columns. record {
      explicit = explicit_view columns.explicit;
      current = columns.classes.current;
      weak = columns.classes.weak;
      closers = columns.classes.brackets.closers;
      neutral = columns.classes.neutral;
      implicit = columns.classes.implicit;
      shown = columns.shown;
    } };
}

impl Columns {
    ghost use Rattle.std.specs.Prelude.{◌≡◌, ◌<◌, length, None, slice_index_or};
    ghost use Rattle.units.specs.Isolates.{level_of_para};
    ghost use Rattle.resolve.specs.Pairs.{closer_in};
    ghost use Rattle.rule_columns.specs.Columns.{column_after};

    /// Returns the level of the paragraph (P2, P3).
    pub fn para_level(&self) -> ParaLevel
        ensures { level_of_para result ≡ self.now.explicit.para_level }
    {
        self.explicit.para_level
    }

    /// Returns the position of the first strong character outside of all isolates (P2), if there is one. It decides the
    /// level of the paragraph, unless the direction is given.
    pub fn first_strong(&self) -> Option<usize>
        ensures { result ≡ self.now.explicit.first_strong }
    {
        self.explicit.first_strong
    }

    /// X1 to X9: returns the explicit level and the class of the position `p`, or `None` if it is removed.
    pub fn leveled(&self, p: usize) -> Option<(Level, Class)>
        requires { p < length self.now.explicit.leveled }
        ensures { result ≡ slice_index_or self.now.explicit.leveled p None }
    {
        self.explicit.leveled.at(p)
    }

    /// Returns the classes after a rule, by position. A removed position has BN.
    pub fn classes_after(&self, rule: Rule) -> &[Class]
        ensures { result.now ≡ column_after self.now rule }
    {
        match rule {
            Rule::X => &self.classes.current,
            Rule::W1 => &self.classes.weak.w1,
            Rule::W2 => &self.classes.weak.w2,
            Rule::W3 => &self.classes.weak.w3,
            Rule::W4 => &self.classes.weak.w4,
            Rule::W5 => &self.classes.weak.w5,
            Rule::W6 => &self.classes.weak.w6,
            Rule::W7 => &self.classes.weak.w7,
            Rule::N0 => &self.classes.brackets.n0,
            Rule::N1 => &self.classes.resolved.n1,
            Rule::N2 => &self.classes.resolved.n2,
        }
    }

    /// Returns the levels after I1 and I2, by position. A removed position has none.
    pub fn implicit(&self) -> &[Option<Level>]
        ensures { result.now ≡ self.now.implicit }
    {
        &self.classes.resolved.implicit
    }

    /// Returns the levels after L1, by position, with the whole paragraph as one line. A removed position has none.
    pub fn levels(&self) -> &[Option<Level>]
        ensures { result.now ≡ self.now.shown.levels }
    {
        &self.shown.levels
    }

    /// Returns the positions that remain, from left to right (L2), with the whole paragraph as one line.
    pub fn order(&self) -> &[usize]
        ensures { result.now ≡ self.now.shown.order }
    {
        &self.shown.order
    }

    /// Returns the isolating run sequences (X10), in the order of their first positions.
    pub fn sequences(&self) -> &Sequences
        ensures { result.now.all ≡ self.now.explicit.sequences }
    {
        &self.explicit.sequences
    }

    /// Returns the position of the closing bracket of the pair that begins at the position `p` (BD16), if one does.
    pub fn closer(&self, p: usize) -> Option<usize>
        requires { p < length self.now.closers }
        ensures { result ≡ closer_in self.now.closers p }
    {
        self.classes.brackets.pairs.closer(p)
    }
}

/// Does what `columns_of` does, with a counter of steps that begins with the blank.
fn columns_with<L: Ledger>(
    alloc: Global,
    para: &[Unit],
    direction: Direction,
    blank: Blank,
) -> Result<Columns, Memory>
    requires separators { SeparatorOnlyLast para.now }
    requires length { length para.now ≤ longest_text }
    requires name { blank.name ≡ L.name }
    requires parts { blank.parts ≡ L.parts }
    requires some { 0 < blank.parts }
    ensures { IfOk result (λ columns. columns ≡ columns_of para.now direction) }
{
    let mut steps = Steps::<L>::new(blank);
    let shown = ShownPart::of(alloc, para, direction, &mut steps)?;
    let explicit = ExplicitPart::of(alloc, para, direction, &mut steps)?;
    let current = current_classes(alloc, &explicit.leveled, para.len())?;
    let classes = ClassesPart::of(alloc, &explicit.sequences, para, current, &mut steps)?;
    Ok(Columns {
        explicit,
        classes,
        shown,
    })
}

/// Applies P2 to L2 to a paragraph under a direction, with the standard limits. Fails with `Memory` if an allocation
/// fails.
pub fn columns_of(alloc: Global, para: &[Unit], direction: Direction) -> Result<Columns, Memory>
    requires separators { SeparatorOnlyLast para.now }
    requires length { length para.now ≤ longest_text }
    ensures columns { IfOk result (λ columns. columns ≡ columns_of para.now direction) }
    ensures length { IfOk result (λ columns. HaveLength columns (length para.now)) }
    ensures inside { IfOk result (λ columns. NamesInside columns (length para.now)) }
{
    columns_with::<Brand>(alloc, para, direction, Blank::new(1))
}
