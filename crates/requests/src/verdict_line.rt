// Prints the line of a verdict.
ghost use Rattle.std.specs.Prelude.{◌≡◌, IfErr, OnOk};
ghost use Rattle.std.specs.Io.KnownBytes.{Appends};
ghost use Rattle.bidtests.specs.VerdictText.{verdict_text};

use bidtests::verdict::Verdict;
use bidtests::verdict_line::print_verdict as print_line;
use printing::fault::PrintFault;
use std::io::Write;

/// Writes the line of a verdict, with its LF. Fails with `Write` if the writer fails. Then it is not known how much the
/// writer took.
pub fn print_verdict<W: Write>(w: &mut W, verdict: &Verdict) -> Result<(), PrintFault>
    ensures line { OnOk result (Appends (W.contents w.old) (W.contents w.new) (verdict_text verdict.now)) }
    ensures fault { IfErr result (λ fault. fault ≡ PrintFault.Write) }
{
    Ok(print_line(w, verdict)?)
}
