//! Writers of which contracts can say that a call failed.
ghost use Rattle.std.specs.Prelude.{⊤, IfErr, IfSome, OnOk};
ghost use Rattle.std.specs.Fmt.{with_newline};
ghost use Rattle.std.specs.Io.KnownBytes.{Appends, Keeps};
ghost use Rattle.std.specs.declared.io.Error.{Error};

use std::fmt::Display;
use std::io;
use std::io::Write;

/// A writer whose contract also names its failures. `Write` doesn't: after an error nothing shows that a write was
/// tried. What is printed over any `Output` can report a failed write only after one of these calls failed. Every
/// writer is an `Output`.
pub trait Output: Write {
    // Whether the last of these calls failed with this error. The code that prints over any writer has to show it,
    // since nothing else is known there. Of each given writer it holds of every error, so callers learn nothing by it.
    ghost failed_with: { Self → Error → Type 0 } = { λ _ _. ⊤ };

    /// Writes all of these bytes, as `write_all` does.
    fn write_bytes(&mut self, bytes: &[u8]) -> io::Result<()>
        ensures written { OnOk result (Appends (Self.contents self.old) (Self.contents self.new) bytes.now) }
        ensures failed { IfErr result (failed_with self.new) };

    /// Writes a text and LF, as `writeln!` does.
    fn write_line<D: Display + Drop>(&mut self, text: D) -> io::Result<()>
        ensures written { OnOk result (IfSome (with_newline (D.output text))
            (Appends (Self.contents self.old) (Self.contents self.new))) }
        ensures failed { IfErr result (failed_with self.new) };

    /// Flushes the writer, as `flush` does.
    fn flush_out(&mut self) -> io::Result<()>
        ensures unchanged { Keeps (Self.contents self.old) (Self.contents self.new) }
        ensures failed { IfErr result (failed_with self.new) };
}

impl<W: Write> Output for W {
    fn write_bytes(&mut self, bytes: &[u8]) -> io::Result<()> {
        self.write_all(bytes)
    }

    fn write_line<D: Display + Drop>(&mut self, text: D) -> io::Result<()> {
        self.writeln(text)
    }

    fn flush_out(&mut self) -> io::Result<()> {
        self.flush()
    }
}
