//! The report on a test file as it is printed, or why it breaks off.

use crate::bytes::bytes_of;
use crate::failing::FailingWriter;
use crate::options::{Coming, Options};
use anyhow::{Result, bail};
use bidtests::kind::{Kind, StoredKind};
use printing::output::Output;
use printing::written::Written;
use report::print::{ReportFault, print_report};
use report::report::Report;
use report::terms::Terms;
use std::alloc::{AllocError, Global};
use units::cut_source::CutSource;
use units::slice_source::SliceSource;
use units::source::ByteSource;

/// Appends a printed report: its lines with `/` between them, and commas in place of semicolons.
fn push_printed(alloc: Global, out: &mut String, printed: &[u8]) -> Result<()> {
    let text = str::from_utf8(printed)?.trim();
    let line = text.replace(alloc, "\n", " / ")?.replace(alloc, ";", ",")?;
    out.push_str(&line)?;
    Ok(())
}

/// Appends why a report broke off, and how many bytes of its source may be unread.
fn push_fault(out: &mut String, fault: ReportFault, unread: u64) -> Result<(), AllocError> {
    let reason = match fault {
        ReportFault::Read {
            written: Written::Whole,
        } => "the source failed, all before was written",
        ReportFault::Read {
            written: Written::CutOff,
        } => "the source failed, and a write before",
        ReportFault::Write => "a write failed",
        ReportFault::NobodyReads => "nobody reads",
    };
    write!(out, "{reason}, {unread} bytes unread")
}

/// A report on a source, with all wrong cases.
struct Reporting<'a, S> {
    report: Report<'a>,
    source: S,
}

impl<S: ByteSource + Drop> Reporting<'_, S> {
    /// Prints the report. Appends why it broke off, if it did.
    fn print<W: Output>(self, w: &mut W, out: &mut String) -> Result<(), AllocError> {
        let Reporting { report, mut source } = self;
        match print_report(w, report, &mut source, u64::MAX) {
            Ok(_) => Ok(()),
            Err(fault) => push_fault(out, fault, source.most_remaining()),
        }
    }

    /// Prints the report to the writer that the options name, and appends what comes out.
    fn come_out(self, alloc: Global, options: &Options, out: &mut String) -> Result<()> {
        if let Some(kind) = options.write_error {
            return Ok(self.print(&mut FailingWriter { kind }, out)?);
        }
        let mut printed = Vec::new(alloc);
        self.print(&mut printed, out)?;
        if out.is_empty() {
            push_printed(alloc, out, &printed)?;
        }
        Ok(())
    }
}

/// Appends the report on the file that a field writes, or why it broke off.
pub fn comes_out(
    alloc: Global,
    kind: Kind<'_>,
    options: &Options,
    field: &str,
    out: &mut String,
) -> Result<()> {
    let bytes = &bytes_of(alloc, field)?;
    let terms = Terms {
        limits: options.limits,
        leniency: options.leniency,
    };
    let report = Report::new(alloc, StoredKind::Borrowed(kind), terms).map_err(|_| AllocError)?;
    let count = options.numbers.one()?;
    match options.coming {
        Coming::Whole => {
            let source = SliceSource::new(bytes);
            Reporting { report, source }.come_out(alloc, options, out)
        }
        Coming::FailingAfter if count <= bytes.len() => {
            let source = CutSource::new(bytes, count);
            Reporting { report, source }.come_out(alloc, options, out)
        }
        _ => bail!("no report is made so"),
    }
}
