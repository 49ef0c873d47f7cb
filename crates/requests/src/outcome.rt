// The results of requests and runs.
ghost use Rattle.std.specs.Prelude.{◌≡◌};
ghost use Rattle.requests.specs.Outcomes.{outcome_status};

/// The result of a request that was done.
#[derive(Clone, Copy, Debug, PartialEq, Eq)]
pub enum Outcome {
    /// A file was judged or reported on, and the result was printed. The number is the exit status of the verdict or
    /// the report.
    Judged(u8),
    /// The output was printed: a text's levels or lines, what each rule does to a text, to classes or to a row, or
    /// rows.
    Printed,
}

/// How a run ended.
#[derive(Clone, Copy, Debug, PartialEq, Eq)]
pub struct Ended {
    /// The exit status.
    pub status: u8,
    /// Whether no write to the output failed.
    pub is_written: bool,
    /// Whether the line that reports the fault, if there is one, was written completely.
    pub is_reported: bool,
}

impl Outcome {
    /// Returns the exit status: that of the verdict or the report, and otherwise 0.
    pub fn status(self) -> u8
        ensures { result ≡ outcome_status self }
    {
        match self {
            Outcome::Judged(status) => status,
            Outcome::Printed => 0,
        }
    }
}
