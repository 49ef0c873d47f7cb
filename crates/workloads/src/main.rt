//! Jobs that users of these libraries wait for, each on texts that are made from a seed. A job prints how much it
//! worked on and a digest of all its results, which is the same at each run with the same seed. No job gets a document,
//! paragraph, line, file or text twice: one that equals an earlier one is drawn again or left out. The characters of
//! its texts have had the same properties since Unicode 15.0.0 (`workloads.txt` of `table_rows`), so that a digest
//! doesn't change with the edition that is built in.
//!
//! `workloads reorder 7` runs the job with this name from the seed 7, which must be below 2^32. The jobs are `reorder`,
//! `levels`, `layout`, `lines`, `judge` and `hostile`. Without arguments it runs all of them, small, from the seed 1.
#![tactic(auto)]

mod digest;
mod documents;
mod hostile;
mod inputs;
mod layouts;
mod lines_of_bytes;
mod row_files;
mod script;
mod size;
mod text_maker;

use crate::digest::Digest;
use crate::size::Size;
use printing::form::Form;
use std::{env, io};

/// A job. It takes a size and a seed, and returns a digest of its results.
#[derive(Clone, Copy)]
enum Job {
    Reorder,
    Levels,
    Layout,
    Lines,
    Judge,
    Hostile,
}

/// All jobs.
const JOBS: [Job; 6] = [
    Job::Reorder,
    Job::Levels,
    Job::Layout,
    Job::Lines,
    Job::Judge,
    Job::Hostile,
];

impl Job {
    /// Returns the word that names the job.
    fn name(self) -> &'static str {
        match self {
            Job::Reorder => "reorder",
            Job::Levels => "levels",
            Job::Layout => "layout",
            Job::Lines => "lines",
            Job::Judge => "judge",
            Job::Hostile => "hostile",
        }
    }

    /// Runs the job.
    fn run(self, rt: &HostRuntime, size: Size, seed: u64) -> io::Result<Digest> {
        let alloc = rt.alloc();
        match self {
            Job::Reorder => {
                let form = Form::Reorder { columns: None };
                documents::print_documents(alloc, form, size.documents(), seed)
            }
            Job::Levels => {
                documents::print_documents(alloc, Form::Levels, size.documents_with_levels(), seed)
            }
            Job::Layout => layouts::lay_out_paragraphs(alloc, size.characters(), seed),
            Job::Lines => lines_of_bytes::lay_out_lines(alloc, size.lines(), seed),
            Job::Judge => row_files::judge_files(alloc, size.row_files(), seed),
            Job::Hostile => hostile::lay_out_hostile(alloc, size.hostile(), seed),
        }
    }
}

/// Runs a job, and prints its line.
fn report(rt: &HostRuntime, job: Job, size: Size, seed: u64) -> io::Result<()> {
    let digest = job.run(rt, size, seed)?;
    let name = job.name();
    let (count, first, second) = digest.parts();
    println!(rt; "{name}: {count} results, {first:016x} {second:016x}")
}

/// Runs all jobs, small.
fn report_all(rt: &HostRuntime) -> io::Result<()> {
    for job in JOBS {
        report(rt, job, Size::Small, 1)?;
    }
    Ok(())
}

/// Returns the job that a word names.
fn job_of(word: &str) -> io::Result<Job> {
    for job in JOBS {
        if job.name() == word {
            return Ok(job);
        }
    }
    Err(io::ErrorKind::InvalidInput.into())
}

/// Runs the job with this name from a seed.
fn report_named(rt: &HostRuntime, name: &str, seed: &str) -> io::Result<()> {
    let job = job_of(name)?;
    let Ok(seed) = seed.parse::<u32>() else {
        return Err(io::ErrorKind::InvalidInput.into());
    };
    report(rt, job, Size::Full, u64::from(seed))
}

/// Returns the arguments after the program's own name.
fn words_after_name(rt: &HostRuntime) -> io::Result<Vec<String>> {
    let mut words = Vec::new(rt.alloc());
    for word in env::args(rt)?.skip(1) {
        words.push(word)?;
    }
    Ok(words)
}

fn main(rt: HostRuntime) -> io::Result<()> {
    let words = words_after_name(&rt)?;
    if words.is_empty() {
        return report_all(&rt);
    }
    if words.len() != 2 {
        return Err(io::ErrorKind::InvalidInput.into());
    }
    report_named(&rt, words[0].as_str(), words[1].as_str())
}
