// The statements of the lines of a file so far.
ghost use Rattle.std.specs.Prelude.{◌≡◌, ◌≢◌, [], ◌∷◌, ◌++◌, None, OnOk, IfErr};
ghost use Rattle.ucdfiles.specs.Faults.{FailsAt};
ghost use Rattle.ucdfiles.specs.Spans.{default_fault};
ghost use Rattle.ucdfiles.specs.Statements.{IsRisingLine, Becomes, stated_fault};

use crate::fault::{Fault, TableFault, at};
use crate::span::{FileLine, Span};
use crate::spans::{MOST_DEFAULTS, add_span};
use std::alloc::Global;
use std::marker::Model;

/// The data lines in the order of their code points, and the default lines in the order of the file.
#[derive(Drop)]
pub struct Statements<V> {
    data: Vec<Span<V>>,
    defaults: Vec<Span<V>>,
}

impl<V> Model for Statements<V> {
    ghost use Rattle.ucdfiles.specs.Spans.{IsRising};
    ghost use Rattle.ucdfiles.specs.Statements.{Stated};

    ghost Value = { Stated V };

    ghost view = { λ t. record { data_lines = t.data.items; default_lines = t.defaults.items } };

    ghost invariant = { λ t. IsRising t.data.items };
}

// Adds one more default line.
fn add_default<V: Copy>(
    defaults: &mut Vec<Span<V>>,
    span: Span<V>,
    line: u64,
) -> Result<(), TableFault>
    ensures ok { OnOk result ((defaults.new.items ≡ defaults.old.items ++ span ∷ [])
        × (default_fault defaults.old.items ≡ None)) }
    ensures err { IfErr result (FailsAt line (default_fault defaults.old.items)) }
    ensures not_read { IfErr result (λ e. e ≢ TableFault.Read) }
{
    if defaults.len() >= MOST_DEFAULTS {
        return Err(TableFault::TooMany(line));
    }
    match defaults.push(span) {
        Ok(()) => Ok(()),
        Err(_) => Err(TableFault::Memory),
    }
}

impl<V: Copy> Statements<V> {
    ghost use Rattle.ucdfiles.specs.Statements.{IsStatedBy};
    ghost use Rattle.ucdfiles.specs.Spans.{IsRising};

    /// Makes statements without lines.
    pub fn new(alloc: Global) -> Self
        ensures { IsStatedBy result [] }
    {
        Statements {
            data: Vec::new(alloc),
            defaults: Vec::new(alloc),
        }
    }

    /// Adds what one more line states. `taken` is the fault if an earlier data line has one of its code points;
    /// `number` is the line's number.
    pub fn add_line(
        &mut self,
        line: FileLine<V>,
        taken: Fault,
        number: u64,
    ) -> Result<(), TableFault>
        requires { IsRisingLine line }
        ensures ok { OnOk result (Becomes taken self.old line self.new) }
        ensures err { IfErr result (FailsAt number (stated_fault taken self.old line)) }
        ensures not_read { IfErr result (λ e. e ≢ TableFault.Read) }
    {
        match line {
            FileLine::Silent => Ok(()),
            FileLine::Faulty(fault) => Err(at(fault, number)),
            FileLine::Data(span) => add_span(&mut self.data, span, taken, number),
            FileLine::Default(span) => add_default(&mut self.defaults, span, number),
        }
    }

    /// Returns the data lines, in the order of their code points.
    pub fn data(&self) -> &[Span<V>]
        ensures value { result.now ≡ self.now.data_lines }
        ensures rising { IsRising result.now }
    {
        &self.data
    }

    /// Returns the default lines, in the order of the file.
    pub fn defaults(&self) -> &[Span<V>]
        ensures { result.now ≡ self.now.default_lines }
    {
        &self.defaults
    }
}
