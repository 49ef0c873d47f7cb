//! The contents of a paragraph, which show the rules that have nothing to do in it, and the end of a paragraph.
ghost use Rattle.std.specs.Prelude.{◌&&◌, ◌||◌, ◌≡◌, ◌+◌, ◌<◌, ◌≤◌, IfSome, IsNone, List, MatchOption, [], ◌++◌, ◌∷◌, Some, false, find, if◌then◌else◌, length, take, true};
ghost use Rattle.std.specs.List.{list_all, list_any};
ghost use Rattle.units.specs.Classes.{classes_of, is_initiator, is_removed, is_strong};
ghost use Rattle.units.specs.Isolates.{level_of_para};
ghost use Rattle.units.specs.declared.class.Class.{Class as BidiClass};
ghost use Rattle.explicit.specs.Flat.{is_flat};
ghost use Rattle.explicit.specs.Uniform.{may_rise_at_even, may_rise_at_odd};
ghost use Rattle.paragraph.specs.ClassSets.{IsSetOf, is_class};
ghost use Rattle.paragraph.specs.Contents.{Describes, IsFirstOf, IsFront, IsUniformLevel, are_flat, has_none, keeps_level, keeps_own};
ghost use Rattle.paragraph.specs.FirstSides.{side_by};
ghost use Rattle.paragraph.specs.LeftToRight.{keeps_explicit, may_leave};
ghost use Rattle.resolve.specs.Wanted.{may_weaken};

use crate::class_set::ClassSet;
use crate::left_to_right::begins_at_zero;
use explicit::para_level::level_under;
use explicit::side::Side;
use std::sync::ledger::Ledger;
use units::bracket::Unit;
use units::class::Class;
use units::level::{Direction, ParaLevel};
use units::steps::Steps;

/// The classes that a paragraph has, and the side of the first strong one.
#[derive(Clone, Copy)]
pub struct Contents {
    classes: ClassSet,
    side: Side,
}

/// The first paragraph of a text.
#[derive(Clone, Copy)]
pub struct FirstParagraph {
    /// How many units it has, its separator among them.
    pub length: usize,
    /// Its contents.
    pub contents: Contents,
}

/// BD5, BD8: Returns whether one of the classes is an initiator of an embedding, an override or an isolate.
fn has_initiator(classes: ClassSet) -> bool
    ensures { (cs : List BidiClass) → IsSetOf classes cs → result ≡ list_any is_initiator cs }
{
    classes.has(Class::LRE)
        | classes.has(Class::RLE)
        | classes.has(Class::LRO)
        | classes.has(Class::RLO)
        | classes.has(Class::LRI)
        | classes.has(Class::RLI)
        | classes.has(Class::FSI)
}

/// X9: Returns whether one of the classes is removed.
pub(crate) fn has_removed(classes: ClassSet) -> bool
    ensures { (cs : List BidiClass) → IsSetOf classes cs → result ≡ list_any is_removed cs }
{
    classes.has(Class::LRE)
        | classes.has(Class::RLE)
        | classes.has(Class::LRO)
        | classes.has(Class::RLO)
        | classes.has(Class::PDF)
        | classes.has(Class::BN)
}

/// I1: Returns whether a class can raise a position above an even level; EN counts as L there.
fn may_rise_at_even(classes: ClassSet) -> bool
    ensures { (cs : List BidiClass) → IsSetOf classes cs → result ≡ list_any may_rise_at_even cs }
{
    classes.has(Class::R) | classes.has(Class::AL) | classes.has(Class::AN)
}

/// I2: Returns whether a class can raise a position above an odd level.
fn may_rise_at_odd(classes: ClassSet) -> bool
    ensures { (cs : List BidiClass) → IsSetOf classes cs → result ≡ list_any may_rise_at_odd cs }
{
    classes.has(Class::L) | classes.has(Class::EN) | classes.has(Class::AN)
}

/// X1 to I2: Returns whether a class can bring a position of a paragraph of level 0 above its explicit level.
fn may_leave(classes: ClassSet) -> bool
    ensures { (cs : List BidiClass) → IsSetOf classes cs → result ≡ list_any may_leave cs }
{
    classes.has(Class::R)
        | classes.has(Class::AL)
        | classes.has(Class::AN)
        | classes.has(Class::RLE)
        | classes.has(Class::RLO)
        | classes.has(Class::RLI)
}

impl Contents {
    /// Returns the contents of a paragraph of one unit of this class.
    pub(crate) fn of_class(class: Class) -> Contents
        ensures { Describes result (class ∷ []) }
    {
        let side = if class.is_strong() {
            Side::Unknown.noting(class)
        } else {
            Side::Unknown
        };
        Contents {
            classes: ClassSet::none().with(class),
            side,
        }
    }

    /// Returns whether there is no initiator: X1 to X9 then leave all positions that remain at the paragraph's level.
    pub fn is_flat(&self) -> bool
        ensures { (cs : List BidiClass) → Describes self.now cs → result ≡ are_flat cs }
    {
        !has_initiator(self.classes)
    }

    /// Returns whether there is no BN, PDF or initiator of an embedding: X9 then removes nothing.
    pub fn all_remain(&self) -> bool
        ensures { (cs : List BidiClass) → Describes self.now cs → result ≡ has_none is_removed cs }
    {
        !has_removed(self.classes)
    }

    /// W1 to W7: Returns whether there is a class that one of these rules can change.
    pub fn has_weak(&self) -> bool
        ensures { (cs : List BidiClass) → Describes self.now cs → result ≡ list_any may_weaken cs }
    {
        self.classes.has(Class::AL)
            | self.classes.has(Class::EN)
            | self.classes.has(Class::ES)
            | self.classes.has(Class::ET)
            | self.classes.has(Class::CS)
            | self.classes.has(Class::NSM)
    }

    /// Returns whether there are letters of both directions.
    pub(crate) fn is_mixed(&self) -> bool
        ensures { (cs : List BidiClass) → Describes self.now cs → result
            ≡ (list_any (is_class BidiClass.L) cs
            && (list_any (is_class BidiClass.R) cs || list_any (is_class BidiClass.AL) cs)) }
    {
        self.classes.has(Class::L) & (self.classes.has(Class::R) | self.classes.has(Class::AL))
    }

    /// L1: Returns whether there is a segment separator.
    pub fn has_segment_separator(&self) -> bool
        ensures { (cs : List BidiClass) → Describes self.now cs → result ≡ list_any (is_class BidiClass.S) cs }
    {
        self.classes.has(Class::S)
    }

    /// X1 to I2: Returns whether each position that remains keeps the paragraph's level, if it is this one.
    pub fn keeps(&self, level: ParaLevel) -> bool
        ensures { (cs : List BidiClass) → Describes self.now cs → result ≡ keeps_level (level_of_para level) cs }
    {
        match level {
            ParaLevel::Zero => !has_initiator(self.classes) & !may_rise_at_even(self.classes),
            ParaLevel::One => !has_initiator(self.classes) & !may_rise_at_odd(self.classes),
        }
    }

    /// P2 to I2: Returns whether there is an initiator, but no R, AL, AN, RLE, RLO or RLI, so that the paragraph has
    /// level 0 under this direction and each position that remains keeps its explicit level.
    pub fn keeps_explicit(&self, direction: Direction) -> bool
        ensures { (cs : List BidiClass) → Describes self.now cs → result ≡ keeps_explicit direction cs }
    {
        begins_at_zero(direction) & has_initiator(self.classes) & !may_leave(self.classes)
    }

    /// P2 to I2: Returns the level of the paragraph under a direction. Returns `None` if not each position that remains
    /// keeps that level.
    pub fn uniform_level(&self, direction: Direction) -> Option<ParaLevel>
        ensures { (cs : List BidiClass) → Describes self.now cs
            → MatchOption result (keeps_own direction cs ≡ false) (IsUniformLevel direction cs) }
    {
        if !self.is_flat() {
            return None;
        }
        let level = level_under(direction, self.side());
        if !self.keeps(level) {
            return None;
        }
        Some(level)
    }

    /// P2: Returns the side of the first strong class, whether it is in an isolate or not.
    pub fn side(&self) -> Side
        ensures { (cs : List BidiClass) → Describes self.now cs → result ≡ side_by (find is_strong cs) }
    {
        self.side
    }
}

/// The scanned front of a text: its number of units, and their classes.
#[derive(Clone, Copy)]
struct Front {
    length: usize,
    classes: ClassSet,
}

/// Returns the classes of the units before `p`, and of the four from `p` on.
fn with_four(before: ClassSet, text: &[Unit], p: usize) -> ClassSet
    requires within { p + 4 ≤ length text.now }
    requires before { IsSetOf before (classes_of (take p text.now)) }
    ensures { IsSetOf result (classes_of (take (p + 4) text.now)) }
{
    let one = before.with(text[p].class);
    let two = one.with(text[p + 1].class);
    let three = two.with(text[p + 2].class);
    three.with(text[p + 3].class)
}

/// How many units the search for the end of a paragraph passes together.
const BLOCK: usize = 8;

/// Returns the classes of the units before `p`, and of the eight from `p` on. Returns `None` if there are not eight, or
/// if one of these classes is a separator.
fn pass_block(before: ClassSet, text: &[Unit], p: usize) -> Option<ClassSet>
    requires within { p ≤ length text.now }
    requires before { IsSetOf before (classes_of (take p text.now)) }
    ensures eight { IfSome result (λ _. p + 8 ≤ length text.now) }
    ensures classes { IfSome result (λ classes. IsSetOf classes (classes_of (take (p + 8) text.now))) }
    ensures passed { IfSome result
        (λ _. list_any (is_class BidiClass.B) (classes_of (take (p + 8) text.now)) ≡ false) }
    ensures none { IsNone result → p + 8 ≤ length text.now
        → list_any (is_class BidiClass.B) (classes_of (take (p + 8) text.now)) ≡ true }
{
    if text.len() - p < BLOCK {
        return None;
    }
    let classes = with_four(with_four(before, text, p), text, p + 4);
    if classes.has(Class::B) {
        None
    } else {
        Some(classes)
    }
}

/// Passes units from `start` on, eight at a time, as long as none of the next eight is a separator. Each unit is a step.
fn pass_eights<L: Ledger>(
    text: &[Unit],
    start: usize,
    before: ClassSet,
    steps: &mut Steps<L>,
) -> Front
    requires front { IsFront start before text.now }
    ensures later { start ≤ result.length }
    ensures front { IsFront result.length result.classes text.now }
    ensures steps { steps.new + start ≡ steps.old + result.length }
{
    let mut classes = before;
    let mut p = start;
    while let Some(more) = pass_block(classes, text, p) {
        steps.add(BLOCK);
        classes = more;
        p += BLOCK;
    }
    Front { length: p, classes }
}

/// P1: Returns the first paragraph of a text that was scanned up to `start`: `before` are the classes of the units
/// before `start`, and `strong` is the first strong one of them (P2). Each unit from `start` on is a step. Passes eight
/// units at a time up to the first eight that have a separator. Never inlined, so that short paragraphs don't pay for
/// it.
#[inline(never)]
fn scan_far<L: Ledger>(
    text: &[Unit],
    start: usize,
    strong: Class,
    before: ClassSet,
    steps: &mut Steps<L>,
) -> FirstParagraph
    requires front { IsFront start before text.now }
    requires strong { find is_strong (classes_of (take start text.now)) ≡ Some strong }
    ensures first { IsFirstOf result text.now }
    ensures within { result.length ≤ length text.now }
    ensures some { start ≤ result.length }
    ensures steps { steps.new + start ≡ steps.old + result.length }
{
    let side = Side::Unknown.noting(strong);
    let front = pass_eights(text, start, before, steps);
    let mut classes = front.classes;
    for p in front.length..text.len() {
        steps.tick();
        let class = text[p].class;
        classes = classes.with(class);
        if class.is_separator() {
            return FirstParagraph {
                length: p + 1,
                contents: Contents { classes, side },
            };
        }
    }
    FirstParagraph {
        length: text.len(),
        contents: Contents { classes, side },
    }
}

/// How many units after the first strong one are read one by one.
const NEAR: usize = 16;

/// P1: Returns the first paragraph of a text that was scanned up to `start`: `before` are the classes of the units
/// before `start`, and `strong` is the first strong one of them (P2). Each unit from `start` on is a step. Reads `NEAR`
/// units one by one, because passing four at a time costs more if the paragraph ends among them.
// Inlined, a short paragraph takes fewer instructions.
#[inline(always)]
fn scan_near<L: Ledger>(
    text: &[Unit],
    start: usize,
    strong: Class,
    before: ClassSet,
    steps: &mut Steps<L>,
) -> FirstParagraph
    requires front { IsFront start before text.now }
    requires strong { find is_strong (classes_of (take start text.now)) ≡ Some strong }
    ensures first { IsFirstOf result text.now }
    ensures within { result.length ≤ length text.now }
    ensures some { start ≤ result.length }
    ensures steps { steps.new + start ≡ steps.old + result.length }
{
    let side = Side::Unknown.noting(strong);
    let mut classes = before;
    for position in start..text.len() {
        steps.tick();
        let class = text[position].class;
        classes = classes.with(class);
        if class.is_separator() {
            return FirstParagraph {
                length: position + 1,
                contents: Contents { classes, side },
            };
        }
        if position + 1 - start == NEAR {
            return scan_far(text, position + 1, strong, classes, steps);
        }
    }
    FirstParagraph {
        length: text.len(),
        contents: Contents { classes, side },
    }
}

/// P2: Returns the side of the first strong class of a text whose classes are this set, or that no class is strong.
/// Returns `None` if the set has strong classes of both sides, since it does not show which of them is the first.
fn only_side(classes: ClassSet) -> Option<Side>
    ensures { (cs : List BidiClass) → IsSetOf classes cs → MatchOption result
        ((list_any (is_class BidiClass.L) cs
        && (list_any (is_class BidiClass.R) cs || list_any (is_class BidiClass.AL) cs)) ≡ true)
        (λ side. side ≡ side_by (find is_strong cs)) }
{
    let left_to_right = classes.has(Class::L);
    let right_to_left = classes.has(Class::R) | classes.has(Class::AL);
    if left_to_right & right_to_left {
        None
    } else if left_to_right {
        Some(Side::LeftToRight)
    } else if right_to_left {
        Some(Side::RightToLeft)
    } else {
        Some(Side::Unknown)
    }
}

/// P2: Returns the side of the first strong class of a text whose set of classes is known. It searches the text up to
/// that class. The units after it count as steps too, because they were passed when the set was found.
fn search_side<L: Ledger>(text: &[Unit], steps: &mut Steps<L>) -> Side
    ensures side { result ≡ side_by (find is_strong (classes_of text.now)) }
    ensures steps { steps.new ≡ steps.old + length text.now }
{
    for k in 0..text.len() {
        steps.tick();
        let class = text[k].class;
        if class.is_strong() {
            steps.add(text.len() - k - 1);
            return Side::Unknown.noting(class);
        }
    }
    Side::Unknown
}

/// P2: Returns the side of the first strong class of a text whose set of classes is known. It passes units only if the
/// set has strong classes of both sides. Each unit counts as a step, because it was passed when the set was found.
fn side_known<L: Ledger>(text: &[Unit], classes: ClassSet, steps: &mut Steps<L>) -> Side
    requires { IsSetOf classes (classes_of text.now) }
    ensures side { result ≡ side_by (find is_strong (classes_of text.now)) }
    ensures steps { steps.new ≡ steps.old + length text.now }
{
    match only_side(classes) {
        Some(side) => {
            steps.add(text.len());
            side
        }
        None => search_side(text, steps),
    }
}

impl FirstParagraph {
    /// P1: Returns the first paragraph of a text and its contents, with a step for each of its units. After the first
    /// strong class it searches only for classes and the separator.
    // Inlined, a short paragraph takes fewer instructions.
    #[inline(always)]
    pub fn of<L: Ledger>(text: &[Unit], steps: &mut Steps<L>) -> FirstParagraph
        ensures first { IsFirstOf result text.now }
        ensures within { result.length ≤ length text.now }
        ensures some { 0 < length text.now → 0 < result.length }
        ensures steps { steps.new ≡ steps.old + result.length }
    {
        let mut classes = ClassSet::none();
        let side = Side::Unknown;
        for k in 0..text.len() {
            steps.tick();
            let class = text[k].class;
            classes = classes.with(class);
            if class.is_separator() {
                return FirstParagraph {
                    length: k + 1,
                    contents: Contents { classes, side },
                };
            }
            if class.is_strong() {
                return scan_near(text, k + 1, class, classes, steps);
            }
        }
        FirstParagraph {
            length: text.len(),
            contents: Contents { classes, side },
        }
    }

    /// P1: Returns what `of` returns, for a caller that may know the set of the classes of the text. If the set is
    /// given and has no separator, the text is its own first paragraph, and the set shows its contents. Each unit
    /// counts as a step, because it was passed when the set was found.
    // Inlined, a short paragraph takes fewer instructions.
    #[inline(always)]
    pub fn of_known<L: Ledger>(
        text: &[Unit],
        classes: Option<ClassSet>,
        steps: &mut Steps<L>,
    ) -> FirstParagraph
        requires classes { IfSome classes (λ set. IsSetOf set (classes_of text.now)) }
        ensures first { IsFirstOf result text.now }
        ensures within { result.length ≤ length text.now }
        ensures some { 0 < length text.now → 0 < result.length }
        ensures steps { steps.new ≡ steps.old + result.length }
    {
        match classes {
            Some(set) if !set.has(Class::B) => FirstParagraph {
                length: text.len(),
                contents: Contents {
                    classes: set,
                    side: side_known(text, set, steps),
                },
            },
            _ => FirstParagraph::of(text, steps),
        }
    }
}
