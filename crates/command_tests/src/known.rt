//! Runs over files in memory, and over a class, whose printed bytes are in a contract.
ghost use Rattle.std.specs.Prelude.{◌≡◌, ◌++◌, codes, true};
ghost use Rattle.command_tests.specs.KnownRuns.{alef_line, neutral_explained, neutral_row_explained};

use crate::memory_files::{MemoryFiles, whole};
use requests::performing::perform;
use requests::request::{FileKind, Print, Request, TableSource, WantedRow};
use std::alloc::Global;
use std::num::NonZeroU64;
use units::level::Direction;

/// Prints the levels of a file that contains an alef, and returns whether that succeeded.
fn print_levels_of_alef(alloc: Global, tables: &str, file: &str, out: &mut Vec<u8>) -> bool
    requires tables { tables.now ≡ codes "t" }
    requires file { file.now ≡ codes "FILE" }
    ensures { result ≡ true → out.new.items ≡ out.old.items ++ codes "paragraph 0 level 1\n0 05D0 R 1\n" }
{
    let files = [
        whole("t/DerivedBidiClass.txt", b"05D0 ; R\n"),
        whole("t/BidiBrackets.txt", b""),
        whole("t/BidiMirroring.txt", b""),
        whole("FILE", b"\xd7\x90"),
    ];
    let request = Request::Text {
        tables: TableSource::Folder(tables),
        direction: Direction::Auto,
        file,
        print: Print::Levels,
    };
    perform(alloc, request, &MemoryFiles::new(&files), out).is_ok()
}

/// Prints the lines of a file that contains an alef, and returns whether that succeeded.
fn print_lines_of_alef(alloc: Global, tables: &str, file: &str, out: &mut Vec<u8>) -> bool
    requires tables { tables.now ≡ codes "t" }
    requires file { file.now ≡ codes "FILE" }
    ensures { result ≡ true → out.new.items ≡ out.old.items ++ alef_line }
{
    let files = [
        whole("t/DerivedBidiClass.txt", b"05D0 ; R\n"),
        whole("t/BidiBrackets.txt", b""),
        whole("t/BidiMirroring.txt", b""),
        whole("FILE", b"\xd7\x90"),
    ];
    let request = Request::Text {
        tables: TableSource::Folder(tables),
        direction: Direction::Auto,
        file,
        print: Print::Reorder { columns: None },
    };
    perform(alloc, request, &MemoryFiles::new(&files), out).is_ok()
}

/// Prints what each rule does to a neutral, and returns whether that succeeded.
fn explain_a_neutral(alloc: Global, classes: &str, out: &mut Vec<u8>) -> bool
    requires { classes.now ≡ codes "ON" }
    ensures { result ≡ true → out.new.items ≡ out.old.items ++ neutral_explained }
{
    let request = Request::ExplainClasses {
        classes,
        direction: Direction::Auto,
    };
    perform(alloc, request, &MemoryFiles::new(&[]), out).is_ok()
}

/// Explains the row at the third line of standard input, and returns whether that succeeded.
fn explain_a_row(alloc: Global, line: NonZeroU64, file: &str, out: &mut Vec<u8>) -> bool
    requires line { line.value ≡ 3 }
    requires file { file.now ≡ codes "-" }
    ensures { result ≡ true → out.new.items ≡ out.old.items ++ neutral_row_explained }
{
    let input = whole("", b"@Levels: 0\n@Reorder: 0\nON; 1\n");
    let files = MemoryFiles::new(&[]).with_input(input);
    let request = Request::ExplainRow(WantedRow {
        kind: FileKind::Classes,
        tables: None,
        line,
        file,
    });
    perform(alloc, request, &files, out).is_ok()
}

/// Judges a standard input of one row, which is right, and returns whether that succeeded.
fn judge_a_right_row(alloc: Global, file: &str, out: &mut Vec<u8>) -> bool
    requires { file.now ≡ codes "-" }
    ensures { result ≡ true → out.new.items ≡ out.old.items ++ codes "yes: 1 rows, 1 cases\n" }
{
    let input = whole("", b"@Levels: 1 1 0\n@Reorder: 1 0 2\nR B L; 1\n");
    let files = MemoryFiles::new(&[]).with_input(input);
    let request = Request::Judge {
        kind: FileKind::Classes,
        tables: None,
        file,
    };
    perform(alloc, request, &files, out).is_ok()
}

/// Judges a file of one row of characters, which is right, and returns whether that succeeded.
fn judge_a_right_row_of_characters(
    alloc: Global,
    tables: &str,
    file: &str,
    out: &mut Vec<u8>,
) -> bool
    requires tables { tables.now ≡ codes "t" }
    requires file { file.now ≡ codes "FILE" }
    ensures { result ≡ true → out.new.items ≡ out.old.items ++ codes "yes: 1 rows, 1 cases\n" }
{
    let files = [
        whole("t/DerivedBidiClass.txt", b"05D0 ; R\n"),
        whole("t/BidiBrackets.txt", b""),
        whole("t/BidiMirroring.txt", b""),
        whole("FILE", b"05D0;2;1;1;0\n"),
    ];
    let request = Request::Judge {
        kind: FileKind::Characters,
        tables: Some(TableSource::Folder(tables)),
        file,
    };
    perform(alloc, request, &MemoryFiles::new(&files), out).is_ok()
}

#[test]
fn prints_what_the_contracts_say(rt: HostRuntime) {
    let alloc = rt.alloc();
    let mut out = Vec::new(alloc);
    assert!(rt; print_levels_of_alef(alloc, "t", "FILE", &mut out));
    assert!(rt; print_lines_of_alef(alloc, "t", "FILE", &mut out));
    assert!(rt; explain_a_neutral(alloc, "ON", &mut out));
    let Some(third) = NonZeroU64::new(3) else {
        return assert!(rt; false);
    };
    assert!(rt; explain_a_row(alloc, third, "-", &mut out));
    assert!(rt; judge_a_right_row(alloc, "-", &mut out));
    assert!(rt; judge_a_right_row_of_characters(alloc, "t", "FILE", &mut out));
    assert_eq!(rt;
        out.as_slice(),
        b"paragraph 0 level 1
0 05D0 R 1
\xd7\x90
paragraph 0 level 0: no strong character
position code class level X W1 W2 W3 W4 W5 W6 W7 N0 N1 N2 I L1
0 - ON 0 . . . . . . . . . L . . .
sequence 0 level 0 sos L eos L: 0
order 0
line 3: auto
paragraph 0 level 0: no strong character
position code class level X W1 W2 W3 W4 W5 W6 W7 N0 N1 N2 I L1
0 - ON 0 . . . . . . . . . L . . .
sequence 0 level 0 sos L eos L: 0
order 0
claimed levels: 0
defined levels: 0
claimed order: 0
defined order: 0
yes: 1 rows, 1 cases
yes: 1 rows, 1 cases
"
            .as_slice()
    );
}
