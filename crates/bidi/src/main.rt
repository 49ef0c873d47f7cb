//! The command `bidi`: lays out bidirectional text, shows what each rule does to it, and judges conformance files of
//! the bidirectional algorithm.
#![tactic(auto)]

ghost use Rattle.std.specs.Prelude.{◌≡◌, ◌≢◌, ◌≤◌, IfOk, OnErr};

use command::run::run;
use requests::fault::{Detail, Fault};
use requests::files::SystemFiles;
use requests::outcome::Ended;
use std::env;
use std::io::{self, BufWriter, ErrorKind, Write};
use std::process::ExitCode;

/// Runs with these arguments, the files of the system, buffered standard output, and standard error. With status 0 and
/// 1, nothing is written to standard error.
fn run_over_system<E: Write>(rt: &HostRuntime, words: &[&str], err: &mut E) -> io::Result<Ended>
    ensures status { IfOk result (λ ended. ended.status ≤ 3) }
    ensures silent { IfOk result (λ ended. ended.status ≤ 1 → E.contents err.new ≡ E.contents err.old) }
    ensures unsaid { OnErr result (E.contents err.new ≡ E.contents err.old) }
{
    let alloc = rt.alloc();
    let mut out = BufWriter::new(alloc, rt.stdout())?;
    Ok(run(alloc, words, &SystemFiles::new(rt), &mut out, err))
}

/// Runs with the arguments of the command line, the files of the system, buffered standard output, and standard error.
fn run_with_words<E: Write>(rt: &HostRuntime, err: &mut E) -> io::Result<Ended>
    ensures status { IfOk result (λ ended. ended.status ≤ 3) }
    ensures silent { IfOk result (λ ended. ended.status ≤ 1 → E.contents err.new ≡ E.contents err.old) }
    ensures unsaid { OnErr result (E.contents err.new ≡ E.contents err.old) }
{
    let owned: Vec<String> = env::args(rt)?.collect(rt.alloc())?;
    let words: Vec<&str> = owned.iter().map(|word| word.as_str()).collect(rt.alloc())?;
    run_over_system(rt, &words, err)
}

/// Returns why the arguments can't be read: an allocation failed, or an argument is not UTF-8.
fn fault_of_words(kind: ErrorKind) -> Fault<'static>
    ensures memory { kind ≡ ErrorKind.OutOfMemory → result ≡ Fault.OutOfMemory }
    ensures utf8 { kind ≢ ErrorKind.OutOfMemory → result ≡ Fault.WordNotUtf8 }
{
    match kind {
        ErrorKind::OutOfMemory => Fault::OutOfMemory,
        _ => Fault::WordNotUtf8,
    }
}

/// Runs, or reports why the arguments can't be read.
fn run_or_say<E: Write>(rt: &HostRuntime, err: &mut E) -> Ended
    ensures status { result.status ≤ 3 }
    ensures silent { result.status ≤ 1 → E.contents err.new ≡ E.contents err.old }
{
    match run_with_words(rt, err) {
        Ok(ended) => ended,
        Err(error) => fault_of_words(error.kind()).report(err, Detail::Brief),
    }
}

fn main(rt: HostRuntime) -> ExitCode {
    let mut err = rt.stderr();
    let ended = run_or_say(&rt, &mut err);
    ExitCode::from(ended.status)
}
