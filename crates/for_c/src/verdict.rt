//! Verdicts as numbers.
ghost use Rattle.std.specs.Prelude.{◌≡◌, IfSome, Some};
ghost use Rattle.for_c.specs.VerdictNumbers.{cause_number, index_in, place_number, verdict_for_c};
ghost use Rattle.for_c.specs.VerdictLines.{HasSmallIndex, HasSmallNumbers};

use crate::directions::{direction_numbered, number_of_direction};
use bidtests::verdict::{Cause, Place, Verdict};

/// A verdict on a test file, as numbers. Numbers that the verdict does not need are 0.
#[repr(C)]
#[derive(Clone, Copy, PartialEq, Eq)]
pub struct BidiVerdict {
    /// 0 if the whole file is right, 1 if a line is malformed, 2 if a case is wrong.
    pub answer: u32,
    /// For a malformed line, the number of the cause, from 1. For a wrong case, 1 for the paragraph's level, 2 for the
    /// levels, 3 for the order.
    pub reason: u32,
    /// For a wrong case, the number of the direction.
    pub direction: u32,
    /// The number of the line, from 1.
    pub line: u64,
    /// For a wrong case, the index in the list of levels or of the order, from 0.
    pub index: usize,
    /// If the whole file is right, the number of its rows.
    pub rows: u64,
    /// If the whole file is right, the number of its cases.
    pub cases: u64,
}

/// Returns the number of a cause, from 1.
pub(crate) fn number_of_cause(cause: Cause) -> u32
    ensures { result ≡ cause_number cause }
{
    match cause {
        Cause::LineTooLong => 1,
        Cause::Directive => 2,
        Cause::LevelItem => 3,
        Cause::OrderItem => 4,
        Cause::ClassItem => 5,
        Cause::BitSet => 6,
        Cause::NoExpectation => 7,
        Cause::FieldCount => 8,
        Cause::CodePoint => 9,
        Cause::DirectionField => 10,
        Cause::ParaField => 11,
        Cause::EmptyRow => 12,
    }
}

/// Returns the number of the part of a case that is wrong, and the index at which it is wrong.
pub(crate) fn numbers_of_place(place: Place) -> (u32, usize)
    ensures number { result.0 ≡ place_number place }
    ensures index { result.1 ≡ index_in place }
{
    match place {
        Place::ParaLevel => (1, 0),
        Place::Levels(index) => (2, index),
        Place::Order(index) => (3, index),
    }
}

/// Numbers that are all 0.
const ZEROS: BidiVerdict = BidiVerdict {
    answer: 0,
    reason: 0,
    direction: 0,
    line: 0,
    index: 0,
    rows: 0,
    cases: 0,
};

/// Returns a verdict as C gets it.
pub fn verdict_for_c(verdict: Verdict) -> BidiVerdict
    ensures { result ≡ verdict_for_c verdict }
{
    match verdict {
        Verdict::Yes { rows, cases } => BidiVerdict {
            rows,
            cases,
            ..ZEROS
        },
        Verdict::Malformed { line, cause } => BidiVerdict {
            answer: 1,
            reason: number_of_cause(cause),
            line,
            ..ZEROS
        },
        Verdict::Wrong {
            line,
            direction,
            place,
        } => {
            let (reason, index) = numbers_of_place(place);
            BidiVerdict {
                answer: 2,
                reason,
                direction: number_of_direction(direction),
                line,
                index,
                ..ZEROS
            }
        }
    }
}

/// Returns the cause with this number, if there is one.
fn cause_numbered(number: u32) -> Option<Cause>
    ensures { (cause : Cause) → number ≡ cause_number cause → result ≡ Some cause }
{
    Some(match number {
        1 => Cause::LineTooLong,
        2 => Cause::Directive,
        3 => Cause::LevelItem,
        4 => Cause::OrderItem,
        5 => Cause::ClassItem,
        6 => Cause::BitSet,
        7 => Cause::NoExpectation,
        8 => Cause::FieldCount,
        9 => Cause::CodePoint,
        10 => Cause::DirectionField,
        11 => Cause::ParaField,
        12 => Cause::EmptyRow,
        _ => return None,
    })
}

/// Returns the place with this number and index, if there is one.
fn place_numbered(number: u32, index: usize) -> Option<Place>
    ensures each { (place : Place) → number ≡ place_number place → index ≡ index_in place → result ≡ Some place }
    ensures small { IfSome result HasSmallIndex }
{
    match number {
        1 => Some(Place::ParaLevel),
        2 => Some(Place::Levels(index)),
        3 => Some(Place::Order(index)),
        _ => None,
    }
}

impl BidiVerdict {
    /// Returns the verdict that these numbers encode. It ignores numbers that the verdict does not need.
    fn named(self) -> Option<Verdict>
        ensures each { (verdict : Verdict) → self ≡ verdict_for_c verdict → result ≡ Some verdict }
        ensures small { IfSome result HasSmallNumbers }
    {
        match self.answer {
            0 => Some(Verdict::Yes {
                rows: self.rows,
                cases: self.cases,
            }),
            1 => Some(Verdict::Malformed {
                line: self.line,
                cause: cause_numbered(self.reason)?,
            }),
            2 => Some(Verdict::Wrong {
                line: self.line,
                direction: direction_numbered(self.direction)?,
                place: place_numbered(self.reason, self.index)?,
            }),
            _ => None,
        }
    }

    /// Returns the verdict that these numbers encode, if they encode one. Numbers that the verdict does not need must
    /// be 0.
    pub fn verdict(self) -> Option<Verdict>
        ensures each { (verdict : Verdict) → self ≡ verdict_for_c verdict → result ≡ Some verdict }
        ensures encoded { IfSome result (λ verdict. self ≡ verdict_for_c verdict) }
        ensures small { IfSome result HasSmallNumbers }
    {
        let verdict = self.named()?;
        if verdict_for_c(verdict) == self {
            Some(verdict)
        } else {
            None
        }
    }
}
