//! The forms of hard texts.
ghost use Rattle.std.specs.Prelude.{◌≡◌};
ghost use Rattle.rows.specs.Forms.{form_characters, form_classes};

use units::class::Class;

/// A form of hard texts, each with letters of its own.
#[derive(Clone, Copy, Debug, PartialEq, Eq)]
pub enum Form {
    /// Embeddings, overrides and isolates. More are opened than closed, so long texts exceed the greatest depth.
    Nest,
    /// Brackets, also canonically equivalent ones. More are opened than closed, so long texts exceed the number of
    /// brackets that can be open. Classes carry no brackets, so this form has only characters.
    Brackets,
    /// Marks after brackets, isolates and overrides.
    Marks,
    /// Numbers, and the characters between and beside them.
    Numbers,
    /// Isolates, some of them closed.
    Isolates,
    /// Separators of both kinds and white space, also inside embeddings and isolates.
    Separators,
}

const NEST_CLASSES: [Class; 23] = [
    Class::LRE,
    Class::RLE,
    Class::LRO,
    Class::RLO,
    Class::LRE,
    Class::RLE,
    Class::LRI,
    Class::RLI,
    Class::FSI,
    Class::LRI,
    Class::RLI,
    Class::PDF,
    Class::PDF,
    Class::PDI,
    Class::PDI,
    Class::L,
    Class::R,
    Class::AL,
    Class::EN,
    Class::AN,
    Class::NSM,
    Class::ON,
    Class::BN,
];

const MARKS_CLASSES: [Class; 20] = [
    Class::NSM,
    Class::NSM,
    Class::NSM,
    Class::NSM,
    Class::L,
    Class::R,
    Class::AL,
    Class::EN,
    Class::AN,
    Class::ET,
    Class::ON,
    Class::LRI,
    Class::RLI,
    Class::FSI,
    Class::PDI,
    Class::PDI,
    Class::LRO,
    Class::RLO,
    Class::PDF,
    Class::BN,
];

const NUMBERS_CLASSES: [Class; 17] = [
    Class::EN,
    Class::EN,
    Class::EN,
    Class::AN,
    Class::AN,
    Class::ES,
    Class::ES,
    Class::CS,
    Class::CS,
    Class::ET,
    Class::ET,
    Class::AL,
    Class::R,
    Class::L,
    Class::NSM,
    Class::ON,
    Class::BN,
];

const ISOLATES_CLASSES: [Class; 13] = [
    Class::FSI,
    Class::FSI,
    Class::RLI,
    Class::LRI,
    Class::PDI,
    Class::PDI,
    Class::PDI,
    Class::L,
    Class::R,
    Class::AL,
    Class::EN,
    Class::BN,
    Class::ON,
];

const SEPARATORS_CLASSES: [Class; 19] = [
    Class::S,
    Class::S,
    Class::B,
    Class::WS,
    Class::WS,
    Class::WS,
    Class::L,
    Class::R,
    Class::AL,
    Class::EN,
    Class::AN,
    Class::ON,
    Class::LRI,
    Class::RLI,
    Class::FSI,
    Class::PDI,
    Class::RLE,
    Class::PDF,
    Class::BN,
];

const NEST_CHARACTERS: [char; 23] = [
    '\u{202A}',
    '\u{202B}',
    '\u{202D}',
    '\u{202E}',
    '\u{202A}',
    '\u{202B}',
    '\u{2066}',
    '\u{2067}',
    '\u{2068}',
    '\u{2066}',
    '\u{2067}',
    '\u{202C}',
    '\u{202C}',
    '\u{2069}',
    '\u{2069}',
    '\u{0061}',
    '\u{05D0}',
    '\u{0627}',
    '\u{0031}',
    '\u{0661}',
    '\u{0300}',
    '\u{0021}',
    '\u{1D173}',
];

const BRACKETS_CHARACTERS: [char; 47] = [
    '\u{0028}',
    '\u{0028}',
    '\u{0028}',
    '\u{0028}',
    '\u{0028}',
    '\u{0028}',
    '\u{0028}',
    '\u{0028}',
    '\u{0028}',
    '\u{0028}',
    '\u{005B}',
    '\u{005B}',
    '\u{005B}',
    '\u{005B}',
    '\u{005B}',
    '\u{005B}',
    '\u{2329}',
    '\u{2329}',
    '\u{2329}',
    '\u{2329}',
    '\u{3008}',
    '\u{3008}',
    '\u{3008}',
    '\u{3008}',
    '\u{FF08}',
    '\u{FF08}',
    '\u{FF08}',
    '\u{FF08}',
    '\u{FF08}',
    '\u{FF08}',
    '\u{2768}',
    '\u{0029}',
    '\u{005D}',
    '\u{232A}',
    '\u{3009}',
    '\u{FF09}',
    '\u{0061}',
    '\u{05D0}',
    '\u{0627}',
    '\u{10400}',
    '\u{10800}',
    '\u{0031}',
    '\u{0661}',
    '\u{0300}',
    '\u{0021}',
    '\u{2067}',
    '\u{2069}',
];

const MARKS_CHARACTERS: [char; 24] = [
    '\u{0300}',
    '\u{05B0}',
    '\u{1D167}',
    '\u{E0100}',
    '\u{0061}',
    '\u{05D0}',
    '\u{0627}',
    '\u{0031}',
    '\u{0661}',
    '\u{0025}',
    '\u{0021}',
    '\u{0028}',
    '\u{0029}',
    '\u{005B}',
    '\u{005D}',
    '\u{2066}',
    '\u{2067}',
    '\u{2068}',
    '\u{2069}',
    '\u{2069}',
    '\u{202D}',
    '\u{202E}',
    '\u{202C}',
    '\u{200B}',
];

const NUMBERS_CHARACTERS: [char; 17] = [
    '\u{0031}',
    '\u{06F1}',
    '\u{1D7CE}',
    '\u{0661}',
    '\u{10E60}',
    '\u{002B}',
    '\u{002D}',
    '\u{002C}',
    '\u{003A}',
    '\u{0025}',
    '\u{20AC}',
    '\u{0627}',
    '\u{05D0}',
    '\u{0061}',
    '\u{0300}',
    '\u{0021}',
    '\u{200B}',
];

const ISOLATES_CHARACTERS: [char; 17] = [
    '\u{2068}',
    '\u{2068}',
    '\u{2067}',
    '\u{2066}',
    '\u{2069}',
    '\u{2069}',
    '\u{2069}',
    '\u{0061}',
    '\u{10400}',
    '\u{05D0}',
    '\u{10800}',
    '\u{0627}',
    '\u{1EE00}',
    '\u{0031}',
    '\u{200B}',
    '\u{1D173}',
    '\u{0021}',
];

const SEPARATORS_CHARACTERS: [char; 20] = [
    '\u{0009}', '\u{001F}', '\u{2029}', '\u{000A}', '\u{0020}', '\u{2003}', '\u{3000}', '\u{0061}',
    '\u{05D0}', '\u{0627}', '\u{0031}', '\u{0661}', '\u{0021}', '\u{2066}', '\u{2067}', '\u{2068}',
    '\u{2069}', '\u{202B}', '\u{202C}', '\u{200B}',
];

impl Form {
    /// Returns the classes from which texts of this form are drawn. A class that is in the list twice is drawn twice as
    /// often. There are no classes for brackets.
    pub fn classes(self) -> &'static [Class]
        ensures { result.now ≡ form_classes self }
    {
        match self {
            Form::Nest => &NEST_CLASSES,
            Form::Brackets => &[],
            Form::Marks => &MARKS_CLASSES,
            Form::Numbers => &NUMBERS_CLASSES,
            Form::Isolates => &ISOLATES_CLASSES,
            Form::Separators => &SEPARATORS_CLASSES,
        }
    }

    /// Returns the characters from which texts of this form are drawn. A character that is in the list twice is drawn
    /// twice as often.
    pub fn characters(self) -> &'static [char]
        ensures { result.now ≡ form_characters self }
    {
        match self {
            Form::Nest => &NEST_CHARACTERS,
            Form::Brackets => &BRACKETS_CHARACTERS,
            Form::Marks => &MARKS_CHARACTERS,
            Form::Numbers => &NUMBERS_CHARACTERS,
            Form::Isolates => &ISOLATES_CHARACTERS,
            Form::Separators => &SEPARATORS_CHARACTERS,
        }
    }
}
