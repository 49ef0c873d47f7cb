//! A paragraph after X1 to X9, as the passes that find its sequences read it.
ghost use Rattle.std.specs.Prelude.{◌≡◌, ◌<◌, ◌≤◌, IfSome, None, Some, length, slice_index_or};
ghost use Rattle.units.specs.Classes.{class_at, classes_of, is_isolate_initiator};
ghost use Rattle.units.specs.Paragraphs.{SeparatorOnlyLast};
ghost use Rattle.units.specs.Runs.{LeveledView, at_one_level, size_of, level_of, matched_pdi};
ghost use Rattle.explicit.specs.Leveled.{IsLeveled, IsNested};
ghost use Rattle.units.specs.Isolates.{level_of_para};
ghost use Rattle.explicit.specs.IsolateMaps.{IsFilledFrom};
ghost use Rattle.sequences.specs.FilledFrom.{AreExplicitLevels, leveled_by};

use explicit::isolates::IsolateMap;
use explicit::leveled_class::LeveledClass;
use explicit::levels::Explicit;
use std::marker::Model;
use units::bracket::Unit;
use units::level::{Level, ParaLevel};

/// A paragraph after X1 to X9.
#[derive(Drop)]
pub struct Leveled<'a> {
    para: &'a [Unit],
    isolates: &'a IsolateMap,
    explicit: &'a [LeveledClass],
    base: Level,
}

impl<'a> Model for Leveled<'a> {
    ghost use Rattle.units.specs.Classes.{classes_of};
    ghost use Rattle.units.specs.Runs.{LeveledView};
    ghost use Rattle.sequences.specs.FilledFrom.{AreOfParagraph, leveled_by};

    ghost Value = { LeveledView };

    ghost view = { λ t. leveled_by t.explicit.now (classes_of t.para.now) t.base };

    ghost invariant = { λ t. AreOfParagraph t.para.now t.isolates.now t.explicit.now t.base };
}

/// Returns the explicit level and the current class of the position `p`, or none if it is removed.
fn at(explicit: &[LeveledClass], p: usize) -> LeveledClass
    requires { p < length explicit.now }
    ensures { result ≡ slice_index_or explicit.now p None }
{
    explicit[p]
}

impl<'a> Leveled<'a> {
    /// Combines the paragraph and its level with its isolates and its explicit levels.
    pub fn new(
        para: &'a [Unit],
        isolates: &'a IsolateMap,
        explicit: &'a Explicit,
        level: ParaLevel,
    ) -> Self
        requires separators { SeparatorOnlyLast para.now }
        requires isolates { IsFilledFrom isolates.now (classes_of para.now) }
        requires levels { AreExplicitLevels explicit.now (classes_of para.now) (level_of_para level) }
        ensures { result ≡ leveled_by explicit.now (classes_of para.now) (level_of_para level) }
    {
        Leveled {
            para,
            isolates,
            explicit: explicit.column(),
            base: level.level(),
        }
    }

    /// Returns the number of positions of the paragraph.
    pub fn len(&self) -> usize
        ensures value { result ≡ size_of self.now }
        ensures leveled { IsLeveled self.now }
        ensures nested { IsNested self.now }
    {
        self.para.len()
    }

    /// Returns the paragraph's level.
    pub fn base(&self) -> Level
        ensures { result ≡ self.now.base }
    {
        self.base
    }

    /// Returns the explicit level of the position, if it remains (X9).
    pub fn level(&self, p: usize) -> Option<Level>
        requires { p < size_of self.now }
        ensures value { result ≡ level_of self.now p }
        ensures within { IfSome result (λ level. level ≤ 125) }
    {
        at(self.explicit, p).level()
    }

    /// Returns whether the position remains and is at this level.
    pub fn is_at(&self, p: usize, level: Level) -> bool
        requires { p < size_of self.now }
        ensures { result ≡ at_one_level (level_of self.now p) (Some level) }
    {
        at(self.explicit, p).is_at(level)
    }

    /// Returns whether the position's own class is LRI, RLI or FSI.
    pub fn is_isolate_initiator(&self, p: usize) -> bool
        requires { p < size_of self.now }
        ensures { result ≡ is_isolate_initiator (class_at self.now.classes p) }
    {
        let para = self.para;
        para[p].class.is_isolate_initiator()
    }

    /// Returns the PDI that matches the isolate initiator at the position (BD9), or none if there is no initiator or no
    /// PDI matches it.
    pub fn matched_pdi(&self, p: usize) -> Option<usize>
        requires { p < size_of self.now }
        ensures value { result ≡ matched_pdi self.now p }
        ensures later { IfSome result (λ q. (p < q) × (q < size_of self.now)) }
    {
        if self.is_isolate_initiator(p) {
            self.isolates.partner(p)
        } else {
            None
        }
    }
}
