//! What must come out of a run.

use anyhow::{Result, bail};
use requests::outcome::Ended;
use row_files::bytes::{bytes_of, push_text};
use std::alloc::Global;

/// What must be printed.
#[derive(Drop)]
pub struct Printed {
    pub bytes: Vec<u8>,
    /// Whether anything may be after these bytes.
    pub goes_on: bool,
    /// Whether it must be flushed.
    pub is_flushed: bool,
}

impl Printed {
    /// Returns that nothing must be printed.
    fn nothing(alloc: Global) -> Printed {
        Printed {
            bytes: Vec::new(alloc),
            goes_on: false,
            is_flushed: true,
        }
    }

    /// Returns whether these bytes may be printed.
    pub fn allows(&self, bytes: &[u8]) -> bool {
        if self.goes_on {
            bytes.starts_with(&self.bytes)
        } else {
            bytes == self.bytes.as_slice()
        }
    }

    /// Appends a line, or its beginning if `...` is after that.
    fn take_line(&mut self, text: &str) -> Result<()> {
        if self.goes_on {
            bail!("a line is after ...");
        }
        match text.strip_suffix("...") {
            Some(text) => {
                self.goes_on = true;
                push_text(&mut self.bytes, text)
            }
            None => {
                push_text(&mut self.bytes, text)?;
                Ok(self.bytes.push(b'\n')?)
            }
        }
    }

    /// Appends the bytes that a field states.
    fn take_bytes(&mut self, alloc: Global, field: &str) -> Result<()> {
        let bytes = bytes_of(alloc, field)?;
        Ok(self.bytes.extend_from_slice(&bytes)?)
    }
}

/// How a run must end, what it must print, and what it must open.
#[derive(Drop)]
pub struct Ending {
    pub out: Printed,
    pub err: Printed,
    pub ended: Option<Ended>,
    pub opens: Option<String>,
}

/// Returns how a run ends with this status, if all is written and reported.
fn ended_with(status: u8) -> Ended {
    Ended {
        status,
        is_written: true,
        is_reported: true,
    }
}

impl Ending {
    /// Returns that of a run of which nothing is known.
    pub fn new(alloc: Global) -> Ending {
        Ending {
            out: Printed::nothing(alloc),
            err: Printed::nothing(alloc),
            ended: None,
            opens: None,
        }
    }

    /// Returns that of a run which prints something, with status 0.
    pub fn printing(alloc: Global) -> Ending {
        let mut ending = Ending::new(alloc);
        ending.out.goes_on = true;
        ending.ended = Some(ended_with(0));
        ending
    }

    /// Takes one of the words that are after a status.
    fn take_flag(&mut self, ended: &mut Ended, flag: &str) -> Result<()> {
        match flag {
            "not written" => ended.is_written = false,
            "not reported" => ended.is_reported = false,
            "not flushed" => self.out.is_flushed = false,
            _ => bail!("no run ends so: {flag}"),
        }
        Ok(())
    }

    /// Takes how a run ends: its status, and what is not written, not reported or not flushed.
    fn take_status(&mut self, text: &str) -> Result<()> {
        let mut parts = text.split("; ");
        let mut ended = ended_with(parts.next().unwrap_or("").parse()?);
        for flag in parts {
            self.take_flag(&mut ended, flag)?;
        }
        self.ended = Some(ended);
        Ok(())
    }

    /// Takes a line whose first word is `what`.
    pub fn take(&mut self, alloc: Global, what: &str, text: &str) -> Result<()> {
        match what {
            "|" => self.out.take_line(text)?,
            "!" => self.err.take_line(text)?,
            "prints" => self.out.take_bytes(alloc, text)?,
            "opens" => self.opens = Some(String::from_str(alloc, text)?),
            "status" => self.take_status(text)?,
            _ => bail!("no line after a run begins with {what}"),
        }
        Ok(())
    }
}
