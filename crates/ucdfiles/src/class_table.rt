// The classes that DerivedBidiClass.txt states.
ghost use Rattle.std.specs.Prelude.{◌≡◌, ◌↔◌, ℕ, List, Err, IfOk, IfErr};

use crate::class_line::class_line;
use crate::fault::{Fault, TableFault};
use crate::reading::{LineTable, read_lines};
use crate::statements::Statements;
use crate::two_stage::{BorrowedStages, TableStages, TwoStage};
use std::alloc::Global;
use std::marker::Model;
use units::class::Class;
use units::source::ByteSource;

impl LineTable for Statements<Class> {
    ghost use Rattle.ucdfiles.specs.ClassFile.{class_fault, class_line_says};
    ghost use Rattle.ucdfiles.specs.Statements.{AreStatedBy};
    ghost use Rattle.ucdfiles.specs.LongLines.{class_fault-long};

    ghost represents = { AreStatedBy class_line_says };

    ghost fault = { class_fault };

    ghost over_long = { class_fault-long };

    fn add(&mut self, line: &[u8], number: u64) -> Result<(), TableFault> {
        self.add_line(class_line(line), Fault::Overlap, number)
    }
}

/// The classes of the characters. Contracts see them through `class_by`.
#[derive(Drop)]
pub struct ClassTable {
    classes: TableStages<'static, Class>,
}

impl Model for ClassTable {
    ghost use Rattle.ucdfiles.specs.TableStages.{stages_of};
    ghost use Rattle.ucdfiles.specs.Stages.{Stages};
    ghost use Rattle.units.specs.declared.class.Class.{Class as ClassOf};

    ghost Value = { Stages ClassOf };

    ghost view = { λ t. stages_of t.classes };
}

impl ClassTable {
    ghost use Rattle.ucdfiles.specs.ClassFile.{class_fault, StatesClasses};
    ghost use Rattle.ucdfiles.specs.Reading.{IsFault, OfAllBytes};
    ghost use Rattle.ucdfiles.specs.Stages.{AreStages};
    ghost use Rattle.ucdfiles.specs.Tables.{class_by};

    /// Reads the source to its end and returns the class table that its bytes state. Fails with the fault of the
    /// first faulty line. Fails with `Read` exactly if the source has failed; then no complete line is faulty, and no
    /// line that has begun is over-long. Fails with `Memory` only after a read that succeeded, so `Memory` hides no
    /// failure from before the call. After a fault, it is unspecified how far the source was read.
    pub fn read<S: ByteSource>(alloc: Global, source: &mut S) -> Result<ClassTable, TableFault>
        ensures read { (result ≡ Err TableFault.Read) ↔ (S.failures source.new ≡ 1) }
        ensures ok { IfOk result (λ table. OfAllBytes (S.gives source.old) S.ended source.new
            (λ given. StatesClasses given (class_by table))) }
        ensures err { IfErr result (λ e. (given : List ℕ) × S.gives source.old given source.new
            × IsFault class_fault (S.ended source.new) given e) }
    {
        let mut lines = Statements::new(alloc);
        read_lines(&mut lines, source)?;
        match TwoStage::new(alloc, lines.data(), lines.defaults(), Class::L) {
            Ok(classes) => Ok(ClassTable {
                classes: TableStages::Made(classes),
            }),
            Err(_) => Err(TableFault::Memory),
        }
    }

    /// Makes the table from constants in two stages. Allocates nothing.
    pub fn of_constants(numbers: &'static [u16], values: &'static [Class]) -> ClassTable
        requires { AreStages (record { numbers = numbers.now; values = values.now }) }
        ensures { result ≡ record { numbers = numbers.now; values = values.now } }
    {
        ClassTable {
            classes: TableStages::Constant(BorrowedStages::new(numbers, values)),
        }
    }

    #[tactic(auto, unfolding(crate::specs::Tables::class_by))]
    /// Returns the class of a character: that of the one data line that contains it, else that of the last `@missing`
    /// line that contains it, else L.
    pub fn class(&self, c: char) -> Class
        ensures { result ≡ class_by self.now c }
    {
        self.classes.value(c)
    }

    /// Borrows the stages.
    pub(crate) fn borrowed(&self) -> BorrowedStages<'_, Class>
        ensures { result ≡ self.now }
    {
        self.classes.borrowed()
    }
}
