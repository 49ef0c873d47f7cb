//! Runs in which each allocation fails in turn.
use crate::command_lines::{
    EXPLAIN, EXPLAIN_CLASSES, EXPLAIN_CODES, EXPLAIN_ROW_OF_CHARACTERS, EXPLAIN_ROW_OF_CLASSES,
    JUDGE_CHARACTERS, JUDGE_CLASSES, LEVELS, REORDER, REPORT_CLASSES, ROWS,
};
use crate::memory_files::{MemoryFiles, tables_and};
use crate::writers::FixedWriter;
use command::run::run;
use requests::outcome::Ended;
use std::alloc::Global;

const WRONG_UNDER_RTL: &[u8] = b"@Levels: 0\n@Reorder: 0\nL; 7\n";

/// What a run returned and wrote.
#[derive(Drop)]
struct Outcome {
    ended: Ended,
    out: FixedWriter,
    err: FixedWriter,
}

/// Runs with these arguments over the small tables and the file.
fn outcome_of(alloc: Global, words: &[&str]) -> Outcome {
    let mut out = FixedWriter::new();
    let mut err = FixedWriter::new();
    let files = tables_and(WRONG_UNDER_RTL);
    let ended = run(alloc, words, &MemoryFiles::new(&files), &mut out, &mut err);
    Outcome { ended, out, err }
}

/// Returns whether a run reported that memory ran out.
fn reports_no_memory(outcome: &Outcome) -> bool {
    outcome.ended.status == 3 && outcome.err.written() == b"bidi: out of memory\n".as_slice()
}

/// Returns whether a run ended with this status, and whether its two outputs begin with these bytes.
fn begins_so(outcome: &Outcome, status: u8, out: &[u8], err: &[u8]) -> bool {
    outcome.ended.status == status
        && outcome.out.written().starts_with(out)
        && outcome.err.written().starts_with(err)
}

// This test is to be run with each allocation failing in turn.
#[test]
fn runs_as_usual_or_reports_that_memory_ran_out(rt: HostRuntime) {
    let rows: [(&[&str], u8, &[u8], &[u8]); 13] = [
        (&LEVELS, 0, b"paragraph 0 level 0\n0 0040 L 0\n", b""),
        (&REORDER, 0, b"@Levels: 0\n@Reorder: 0\nL; 7\n", b""),
        (&EXPLAIN, 0, b"paragraph 0 level 0", b""),
        (&EXPLAIN_CLASSES, 0, b"paragraph 0 level 1", b""),
        (&EXPLAIN_CODES, 0, b"paragraph 0 level 1", b""),
        (&EXPLAIN_ROW_OF_CLASSES, 0, b"line 3: auto\n", b""),
        (
            &EXPLAIN_ROW_OF_CHARACTERS,
            3,
            b"",
            b"bidi: FILE: line 1: malformed: FieldCount\n",
        ),
        (&JUDGE_CLASSES, 1, b"no: line 3: rtl: levels at 0\n", b""),
        (
            &JUDGE_CHARACTERS,
            1,
            b"no: line 1: malformed: FieldCount\n",
            b"",
        ),
        (&REPORT_CLASSES, 1, b"line 3: rtl: levels at 0: ", b""),
        (&ROWS, 0, b"@Levels: 1\n", b""),
        (&["bidi", "judge", "--help"], 0, b"Judges ", b""),
        (&["bidi", "other"], 2, b"", b"error: "),
    ];
    for (words, status, out, err) in rows {
        let outcome = outcome_of(rt.alloc(), words);
        let is_right = reports_no_memory(&outcome) || begins_so(&outcome, status, out, err);
        assert!(rt; is_right, "{words:?}");
    }
}
