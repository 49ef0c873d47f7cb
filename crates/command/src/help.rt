// The texts of help and of the version.

/// The short description of `bidi`.
pub const BIDI_ABOUT: &str =
    "Lays out texts with the Unicode Bidirectional Algorithm (UAX #9), shows what each rule does to a
text or a row, and judges, reports on and prints conformance files";

/// The long description of `bidi`, with its exit statuses.
pub const BIDI_LONG_ABOUT: &str =
    "Lays out texts with the Unicode Bidirectional Algorithm (UAX #9), shows what each rule
does to a text or to a row of a conformance file, judges conformance files, reports on
them, and prints such files, of hard texts or of the lines of a text.

Ends with status 0 if it succeeds or the verdict is yes, 1 if the verdict is no or a
reported file is wrong, 2 if the command line is rejected, the value of an option is not
allowed, needed tables are not named or a line is not a row, and 3 if a file can't be
read, a line of a table is faulty, a text is not UTF-8, a write fails or memory runs out.

An error is one line on standard error. Each subcommand takes -v, which adds a second
line with the reason. The first line and the status stay the same.";

/// The text of `--version` after the name: the version, the rules, the edition of the built-in tables, and the kit that
/// the proofs use.
pub const BIDI_VERSION: &str = "1.1.0 (rules P1 to L2 and L4 of UAX #9, Unicode 17.0)
tables of Unicode 17.0.0 built in
proved with rattle-kit-13f logic dac8208d650f15bf";

/// The usage of `bidi`.
pub const BIDI_USAGE: &str = "bidi <COMMAND>";

/// The end of the help of `bidi`.
pub const BIDI_EXAMPLE: &str = "Example:\n  bidi levels text.txt";

/// The help of `--tables`, if the built-in tables are the default.
pub const TABLES_HELP: &str =
    "The folder of DerivedBidiClass.txt, BidiBrackets.txt and BidiMirroring.txt; the default is the built-in tables \
     of Unicode 17.0";

/// The help of `--tables` of `explain`.
pub const EXPLAIN_TABLES_HELP: &str =
    "The folder of DerivedBidiClass.txt, BidiBrackets.txt and BidiMirroring.txt; the default is the built-in tables \
     of Unicode 17.0, except with --row and --kind characters, which need --tables or --built-in";

/// The help of `--built-in` of `explain`.
pub const EXPLAIN_BUILT_IN_HELP: &str =
    "Uses the built-in tables of Unicode 17.0 instead of --tables; for a text this is the default";

/// The help of `--built-in`, if files of characters need tables.
pub const JUDGE_BUILT_IN_HELP: &str =
    "Uses the built-in tables of Unicode 17.0 instead of --tables, for a test file of that edition";

/// The help of `--built-in` of `rows`.
pub const ROWS_BUILT_IN_HELP: &str =
    "Uses the built-in tables of Unicode 17.0 instead of --tables; this is the default";

/// The help of `--tables`, if files of characters need it.
pub const JUDGE_TABLES_HELP: &str =
    "The folder of DerivedBidiClass.txt, BidiBrackets.txt and BidiMirroring.txt, in the edition of the test file";

/// The help of `--verbose`.
pub const VERBOSE_HELP: &str = "Prints a second line for an error: the reason, if it is known";

/// The help of `--direction`.
pub const DIRECTION_HELP: &str =
    "The direction of each paragraph. `auto` finds it with rules P2 and P3, and so does \
     `auto-rtl`, which is right to left if they find no strong character";

/// The description of `levels`, with its exit statuses.
pub const LEVELS_LONG_ABOUT: &str = "Prints the levels of a text in UTF-8.

For each paragraph, prints a line `paragraph K level P`, K counted from 0. For each of
its positions, prints a line `POSITION CODE CLASS LEVEL`: the position in the text,
counted from 0, the code point, the class, and the level after rule L1, or `x` if rule
X9 removes the position. A paragraph is printed as soon as its end is read, even if the
text after it can't be read or is not UTF-8.

Ends with status 0 if it succeeds, 2 if the command line is rejected, and 3 if a file
can't be read, a line of a table is faulty, the text is not UTF-8, a write fails or
memory runs out.";

/// The end of the help of `levels`.
pub const LEVELS_EXAMPLE: &str =
    "Examples:\n  bidi levels --direction rtl text.txt\n  bidi levels --tables ucd text.txt";

/// The description of `reorder`, with its exit statuses.
pub const REORDER_LONG_ABOUT: &str = "Prints the lines of a text in UTF-8 as they are shown.

Each paragraph is a line. With --columns, each N characters of a paragraph are a line.
A line is printed from left to right, with mirrored characters (rule L4), without the
positions that rule X9 removes, and without paragraph separators. A paragraph is printed
as soon as its end is read, even if the text after it can't be read or is not UTF-8.

Ends with status 0 if it succeeds, 2 if the command line is rejected, and 3 if a file
can't be read, a line of a table is faulty, the text is not UTF-8, a write fails or
memory runs out.";

/// The help of `--columns`.
pub const COLUMNS_HELP: &str = "Breaks lines at every N characters of a paragraph, 1 to 65535";

/// The end of the help of `reorder`.
pub const REORDER_EXAMPLE: &str =
    "Examples:\n  bidi reorder --columns 80 text.txt\n  bidi reorder --tables ucd text.txt";

/// The description of `explain`, with its exit statuses.
pub const EXPLAIN_LONG_ABOUT: &str =
    "Prints what each rule does to a text in UTF-8, to code points, to a list of classes, or to a
row of a conformance file.

For each paragraph, prints a line `paragraph K level L: WHY`, K counted from 0. WHY is what
decides the level. Then prints a row for each of its positions, its isolating run sequences,
its bracket pairs, and its order from left to right.

A row has the position in the text, counted from 0, the code point, the class, the level
after X1 to X8, or `x` if X9 removes the position, the class after X1 to X8, after each of
W1 to W7 and after N0, N1 and N2, the level after I1 and I2, and the level after L1. `.`
means that a rule changes nothing.

With --row, explains the row at a line of a conformance file. For each direction that the
row names, prints a line `line N: DIRECTION`, all of the above, and then what the row claims
and what is defined: the paragraph level, if the row claims one, the levels and the order.

Ends with status 0 if it succeeds, 2 if the command line is rejected, --classes has an item
that is not a class, --codes has an item that is not a code point, needed tables are not
named or the line is not a row, and 3 if a file can't be read, a line of a table or a line
up to the row is faulty, the text is not UTF-8, a write fails or memory runs out.";

/// The usage of `explain`.
pub const EXPLAIN_USAGE: &str = "bidi explain [OPTIONS] <FILE>
       bidi explain [OPTIONS] --codes <CODES>
       bidi explain [OPTIONS] --classes <CLASSES>
       bidi explain [OPTIONS] --row <LINE> --kind <KIND> <FILE>";

/// The help of `--kind` of `explain`.
pub const EXPLAIN_KIND_HELP: &str =
    "The form of the file that has the row: that of BidiTest.txt, or that of BidiCharacterTest.txt, which needs \
     --tables or --built-in";

/// The help of `--direction` of `explain`. A row has its own directions.
pub const EXPLAIN_DIRECTION_HELP: &str =
    "The direction of each paragraph. `auto`, the default, finds it with rules P2 and P3, and so does \
     `auto-rtl`, which is right to left if they find no strong character";

/// The help of `--row`.
pub const ROW_HELP: &str =
    "Explains the row at this line of a conformance file, counted from 1, instead of a text";

/// The help of `--classes`.
pub const CLASSES_HELP: &str = "Short names of classes, separated by blanks, instead of a text";

/// The help of `--codes`.
pub const CODES_HELP: &str = "Code points in hex digits, separated by blanks, instead of a text";

/// The end of the help of `explain`.
pub const EXPLAIN_EXAMPLE: &str = "Examples:
  bidi explain text.txt
  bidi explain --codes '05D0 0028'
  bidi explain --classes 'R ON LRE L'
  bidi explain --row 1200 --kind characters --built-in BidiCharacterTest.txt";

/// The description of `judge`, with its exit statuses.
pub const JUDGE_LONG_ABOUT: &str = "Judges a conformance file.

Prints `yes`, with the numbers of rows and cases, if the file is well formed and
each row claims, for each direction that it names, the levels and the order that
the algorithm gives. Otherwise prints `no`, with the first line that is malformed
or wrong, and what is wrong there.

Ends with status 0 after a yes, 1 after a no, 2 if the command line is rejected or
needed tables are not named, and 3 if a file can't be read, a line of a table is
faulty, a write fails or memory runs out.";

/// The usage of `judge`.
pub const JUDGE_USAGE: &str = "bidi judge [OPTIONS] --kind <KIND> <FILE>";

/// The help of `--kind`, if it is required.
pub const KIND_HELP: &str =
    "The file's form: that of BidiTest.txt, or that of BidiCharacterTest.txt, which needs --tables or --built-in";

/// The end of the help of `judge`.
pub const JUDGE_EXAMPLE: &str = "Examples:
  bidi judge --kind characters --built-in BidiCharacterTest.txt
  bidi judge --kind characters --tables ucd BidiCharacterTest.txt";

/// The description of `report`, with its exit statuses.
pub const REPORT_LONG_ABOUT: &str =
    "Reports on a conformance file: judges it, and continues after a wrong row.

Prints a line for each of the first wrong cases, with its line, its direction, the first
place that differs, and what is claimed and what is defined there. Continues to the end of
the file or to the first malformed line, which it names as judge does. Then prints how
many rows and cases there are, and how many cases are wrong, by direction and by place.

With --order or --shown, compares less of each case, for an engine that returns no levels,
or one that keeps the positions that X9 removes, as the standard allows (UAX #9, 5.2).

Ends with status 0 if no line is malformed and no case is wrong, as when judge prints yes,
1 if one is, 2 if the command line is rejected or needed tables are not named, and 3 if a
file can't be read, a line of a table is faulty, a write fails or memory runs out.";

/// The usage of `report`.
pub const REPORT_USAGE: &str = "bidi report [OPTIONS] --kind <KIND> <FILE>";

/// The help of `--most`.
pub const REPORT_MOST_HELP: &str =
    "How many wrong cases are printed at most, 20 by default; all are counted";

/// The help of `--order`.
pub const REPORT_ORDER_HELP: &str = "Compares only the order: no paragraph level, and no levels";

/// The help of `--shown`.
pub const REPORT_SHOWN_HELP: &str =
    "Compares only what is shown: levels and order without the positions that X9 removes";

/// The end of the help of `report`.
pub const REPORT_EXAMPLE: &str = "Examples:
  bidi report --kind classes --most 100 rows.txt
  bidi report --kind classes --shown --order rows.txt
  bidi report --kind characters --built-in BidiCharacterTest.txt";

/// The description of `rows`, with its exit statuses.
pub const ROWS_LONG_ABOUT: &str =
    "Prints a conformance file with right answers, in the form of BidiTest.txt or, with
`--kind characters`, of BidiCharacterTest.txt.

With `--form exhaustive`, its texts are all texts of the given lengths over an alphabet,
the shorter ones first. With `--form random`, they are as many as requested, drawn with a
seed: the same arguments print the same file on every machine. Each other form draws its
texts from letters of its own: `nest` has embeddings, overrides and isolates, `brackets`
has brackets, which only characters have, `marks` has marks after brackets and isolates,
`numbers` has numbers and what is between them, `isolates` has isolates, and `separators`
has separators and white space. A long text of `nest` exceeds the greatest depth, and a
long text of `brackets` exceeds the greatest number of open brackets.

With --of, its texts are the lines of a text in UTF-8. A line ends before its LF, and a
line without a character makes no row. The other lines become rows of characters, or
with `--kind classes` rows of classes, in which the brackets are lost.

Each text has a case for each of the directions. With `--kind classes`, a case is three
lines: its levels, its order, and a row that names the direction. With `--kind characters`
it is one row.

Ends with status 0 if it succeeds, 2 if the command line is rejected, --alphabet has an
item that is not a class or not a code point, there is no letter, --length is not a range
of lengths, --directions is empty or has an item that is not a direction, all texts are
requested and there are 2^64 or more of a length, or texts are to be drawn and --length
ends before it begins, and 3 if a file can't be read, a line of a table is faulty, the
text is not UTF-8 or has a line of more than 4095 characters, a write fails or memory
runs out.";

/// The usage of `rows`.
pub const ROWS_USAGE: &str =
    "bidi rows [OPTIONS] --form exhaustive|random --alphabet <LETTERS> --length <LENGTHS>
       bidi rows [OPTIONS] --form <FORM> --length <LENGTHS>
       bidi rows [OPTIONS] --of <FILE>";

/// The help of `--kind` of `rows`.
pub const ROWS_KIND_HELP: &str =
    "The file's form: that of BidiTest.txt, the default, or that of BidiCharacterTest.txt, the default with --of";

/// The help of `--form`.
pub const FORM_HELP: &str =
    "The texts of the rows: with `exhaustive` all texts of the lengths over the alphabet, \
     with `random` as many as --count says, drawn from it with --seed; with each other form \
     as many, drawn from letters of its own";

/// The help of `--alphabet`.
pub const ALPHABET_HELP: &str =
    "The letters of `--form exhaustive` and `--form random`, separated by blanks: short names \
     of classes, or with `--kind characters` code points in hex digits";

/// The help of `--length`.
pub const LENGTH_HELP: &str =
    "The lengths of the texts, 1 to 4095: `N`, or `A..B` for all from A to B";

/// The help of `--directions`.
pub const DIRECTIONS_HELP: &str =
    "The directions of each text, separated by blanks: auto, ltr, rtl or auto-rtl";

/// The help of `--of`.
pub const OF_HELP: &str =
    "The text whose lines become rows, or `-` for standard input, instead of texts of a form";

/// The help of `--seed`.
pub const ROWS_SEED_HELP: &str = "The seed for drawing texts, 0 by default";

/// The help of `--count`.
pub const ROWS_COUNT_HELP: &str = "How many texts are drawn, 1000 by default";

/// The end of the help of `rows`.
pub const ROWS_EXAMPLE: &str = "Examples:
  bidi rows --form exhaustive --alphabet 'LRO RLE L PDF PDI RLO' --length 1..4
  bidi rows --form random --seed 1 --count 5000 --alphabet 'L R AL AN NSM' --length 1..40
  bidi rows --form nest --length 1..600 --directions 'ltr rtl'
  bidi rows --form brackets --kind characters --length 1..900
  bidi rows --of text.txt --directions 'ltr rtl'";
