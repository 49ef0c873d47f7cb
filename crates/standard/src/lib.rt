//! The tables of one edition of Unicode, built in as constants.
#![tactic(auto)]

ghost use Rattle.ucdfiles.specs.Files.{StateTables};
ghost use Rattle.standard.specs.declared.facts.TheConstants.{BRACKETS, CLASSES, MIRRORS};

pub mod brackets;
pub mod classes;
pub mod facts;
pub mod mirrors;

use ucdfiles::bracket_table::BracketTable;
use ucdfiles::class_table::ClassTable;
use ucdfiles::mirror_table::MirrorTable;
use ucdfiles::tables::Tables;

/// Returns the tables that the facts of the edition `facts::EDITION` state. They are constants: the call reads no
/// facts, allocates nothing and can't fail.
pub fn tables() -> Tables
    ensures { StateTables CLASSES BRACKETS MIRRORS result }
{
    let classes = ClassTable::of_constants(&classes::NUMBERS, &classes::VALUES);
    let brackets = BracketTable::of_constants(
        &brackets::NUMBERS,
        &brackets::VALUES,
        &brackets::SPANS,
    );
    let mirrors = MirrorTable::of_constants(&mirrors::NUMBERS, &mirrors::VALUES);
    Tables::with_neutral_brackets(classes, brackets, mirrors)
}
