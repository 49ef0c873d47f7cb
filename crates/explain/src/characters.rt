// The characters of a row's text.
ghost use Rattle.std.specs.Prelude.{◌≡◌, ◌*◌, ◌≤◌, length, vec_capacity};
ghost use Rattle.units.specs.Text.{longest_line};
ghost use Rattle.explain.specs.WantedRows.{characters_of};

use bidtests::item::{ReadsItem, character, read_items};
use bidtests::kind::Kind;
use units::text::cut::cut_field;
use units::text::trim::content;

/// Reads a code point that is not a surrogate.
#[derive(Drop)]
struct CodePoints;

impl ReadsItem<char> for CodePoints {
    ghost use Rattle.ucdfiles.specs.PairFiles.{char_of};

    ghost reading = { λ _. char_of };

    fn read(&self, item: &[u8]) -> Option<char> {
        character(item)
    }
}

/// Reads the characters of a row into `chars`. `line` is the row, in a file of the given kind. Rows of classes have no
/// characters.
pub fn read_characters(kind: Kind<'_>, line: &[u8], chars: &mut Vec<char>)
    requires short { length line.now ≤ longest_line }
    requires room { longest_line ≤ 2 * vec_capacity chars.old }
    ensures chars { chars.new.items ≡ characters_of kind.entry line.now }
    ensures room { vec_capacity chars.new ≡ vec_capacity chars.old }
{
    match kind {
        Kind::Classes => chars.clear(),
        Kind::Characters(_) => {
            let (field, _) = cut_field(content(line));
            if !read_items(&CodePoints, field, chars) {
                chars.clear();
            }
        }
    }
}
