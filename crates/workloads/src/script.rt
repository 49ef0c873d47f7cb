//! What texts are written in.

/// What a text is written in.
#[derive(Clone, Copy)]
pub enum Script {
    English,
    Hebrew,
    Vowelled,
    Arabic,
    Persian,
    Mixed,
    Isolated,
    Embedded,
}

/// All scripts.
pub const SCRIPTS: [Script; 8] = [
    Script::English,
    Script::Hebrew,
    Script::Vowelled,
    Script::Arabic,
    Script::Persian,
    Script::Mixed,
    Script::Isolated,
    Script::Embedded,
];

pub const ENGLISH: [&str; 16] = [
    "the",
    "paragraph",
    "of",
    "a",
    "text",
    "is",
    "stored",
    "in",
    "order",
    "which",
    "reads",
    "from",
    "left",
    "to",
    "right",
    "Unicode",
];

pub const HEBREW: [&str; 16] = [
    "שלום",
    "עולם",
    "ספר",
    "של",
    "הטקסט",
    "בעברית",
    "נכתב",
    "מימין",
    "לשמאל",
    "אל",
    "כל",
    "פסקה",
    "היא",
    "שורה",
    "אחת",
    "ארוכה",
];

const VOWELLED: [&str; 16] = [
    "בְּרֵאשִׁית",
    "בָּרָא",
    "אֱלֹהִים",
    "אֵת",
    "הַשָּׁמַיִם",
    "וְאֵת",
    "הָאָרֶץ",
    "וְהָאָרֶץ",
    "הָיְתָה",
    "תֹהוּ",
    "וָבֹהוּ",
    "וְחֹשֶׁךְ",
    "עַל",
    "פְּנֵי",
    "תְהוֹם",
    "וְרוּחַ",
];

pub const ARABIC: [&str; 16] = [
    "النص",
    "العربي",
    "يكتب",
    "من",
    "اليمين",
    "إلى",
    "اليسار",
    "كتاب",
    "في",
    "كل",
    "سطر",
    "كلمة",
    "واحدة",
    "هذا",
    "هو",
    "الترتيب",
];

const PERSIAN: [&str; 16] = [
    "می\u{200C}خواهم",
    "کتاب\u{200C}ها",
    "را",
    "به",
    "زبان",
    "فارسی",
    "بنویسم",
    "و",
    "نمی\u{200C}دانم",
    "که",
    "چگونه",
    "این",
    "خط",
    "از",
    "راست",
    "است",
];

pub const NUMBERS: [&str; 16] = [
    "1", "12", "2026", "3.14", "1,000", "50%", "$20", "+7", "-5", "10:45", "٢٠٢٦", "١٢", "۱۴۰۵",
    "1/2", "#3", "99",
];

impl Script {
    /// Returns its words.
    pub fn words(self) -> &'static [&'static str; 16] {
        match self {
            Script::English => &ENGLISH,
            Script::Hebrew | Script::Isolated => &HEBREW,
            Script::Vowelled => &VOWELLED,
            Script::Arabic | Script::Embedded => &ARABIC,
            Script::Persian => &PERSIAN,
            Script::Mixed => &HEBREW,
        }
    }
}
