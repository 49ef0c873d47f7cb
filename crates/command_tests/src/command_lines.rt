//! Command lines of each request.

/// `levels` of a text, with the tables of a folder.
pub const LEVELS: [&str; 5] = ["bidi", "levels", "--tables", "t", "FILE"];

/// `reorder` of a text.
pub const REORDER: [&str; 5] = ["bidi", "reorder", "--tables", "t", "FILE"];

/// `explain` of a text.
pub const EXPLAIN: [&str; 5] = ["bidi", "explain", "--tables", "t", "FILE"];

/// `explain` of classes.
pub const EXPLAIN_CLASSES: [&str; 4] = ["bidi", "explain", "--classes", "R ON LRE L"];

/// `explain` of code points.
pub const EXPLAIN_CODES: [&str; 6] = ["bidi", "explain", "--tables", "t", "--codes", "05D0 0028"];

/// `explain` of a row of a file of classes.
pub const EXPLAIN_ROW_OF_CLASSES: [&str; 7] = [
    "bidi", "explain", "--row", "3", "--kind", "classes", "FILE",
];

/// `explain` of a row of a file of characters.
pub const EXPLAIN_ROW_OF_CHARACTERS: [&str; 9] = [
    "bidi",
    "explain",
    "--row",
    "1",
    "--kind",
    "characters",
    "--tables",
    "t",
    "FILE",
];

/// `judge` of a file of classes.
pub const JUDGE_CLASSES: [&str; 5] = ["bidi", "judge", "--kind", "classes", "FILE"];

/// `rows`: all texts of one class.
pub const ROWS: [&str; 8] = [
    "bidi",
    "rows",
    "--form",
    "exhaustive",
    "--alphabet",
    "R L",
    "--length",
    "1",
];

/// `judge` of a file of characters.
pub const JUDGE_CHARACTERS: [&str; 7] = [
    "bidi",
    "judge",
    "--kind",
    "characters",
    "--tables",
    "t",
    "FILE",
];

/// `report` on a file of classes.
pub const REPORT_CLASSES: [&str; 5] = ["bidi", "report", "--kind", "classes", "FILE"];
