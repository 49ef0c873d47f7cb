// Reading of the names of classes at the front of a line, in one pass.
ghost use Rattle.std.specs.Prelude.{◌≡◌, ◌==◌, ◌||◌, ◌+◌, ◌*◌, ◌<◌, ◌≤◌, [], ◌∷◌, List, ℕ, length, take, get_or, vec_capacity, IfSome};
ghost use Rattle.units.specs.ClassNames.{short_name};
ghost use Rattle.bidtests.specs.PlainRows.{IsNameAt, ReadsNames};

use units::bracket::{Bracket, Unit};
use units::class::Class;

/// A class whose name the bytes begin with.
#[derive(Clone, Copy)]
pub struct Name {
    class: Class,
    /// The length of the name, in bytes.
    length: usize,
}

fn one_letter(a: u8) -> Option<Class>
    ensures { IfSome result (λ class. short_name class ≡ a ∷ []) }
{
    match a {
        b'L' => Some(Class::L),
        b'R' => Some(Class::R),
        b'B' => Some(Class::B),
        b'S' => Some(Class::S),
        _ => None,
    }
}

fn two_letters(a: u8, b: u8) -> Option<Class>
    ensures { IfSome result (λ class. short_name class ≡ a ∷ b ∷ []) }
{
    match (a, b) {
        (b'A', b'L') => Some(Class::AL),
        (b'A', b'N') => Some(Class::AN),
        (b'B', b'N') => Some(Class::BN),
        (b'C', b'S') => Some(Class::CS),
        (b'E', b'N') => Some(Class::EN),
        (b'E', b'S') => Some(Class::ES),
        (b'E', b'T') => Some(Class::ET),
        (b'O', b'N') => Some(Class::ON),
        (b'W', b'S') => Some(Class::WS),
        _ => None,
    }
}

fn three_letters(a: u8, b: u8, c: u8) -> Option<Class>
    ensures { IfSome result (λ class. short_name class ≡ a ∷ b ∷ c ∷ []) }
{
    match (a, b, c) {
        (b'F', b'S', b'I') => Some(Class::FSI),
        (b'L', b'R', b'E') => Some(Class::LRE),
        (b'L', b'R', b'I') => Some(Class::LRI),
        (b'L', b'R', b'O') => Some(Class::LRO),
        (b'N', b'S', b'M') => Some(Class::NSM),
        (b'P', b'D', b'F') => Some(Class::PDF),
        (b'P', b'D', b'I') => Some(Class::PDI),
        (b'R', b'L', b'E') => Some(Class::RLE),
        (b'R', b'L', b'I') => Some(Class::RLI),
        (b'R', b'L', b'O') => Some(Class::RLO),
        _ => None,
    }
}

/// Returns whether a name ends before this byte.
fn ends_name(byte: u8) -> bool
    ensures { result ≡ (byte == 32 || byte == 59) }
{
    byte == b' ' || byte == b';'
}

/// Returns the class whose name the bytes begin with, if a space or a `;` follows. It needs four bytes.
pub fn first_name(bytes: &[u8]) -> Option<Name>
    ensures { IfSome result (λ name. IsNameAt bytes.now name.class name.length) }
{
    let [a, b, c, d, ..] = *bytes else {
        return None;
    };
    if ends_name(b) {
        let class = one_letter(a)?;
        Some(Name { class, length: 1 })
    } else if ends_name(c) {
        let class = two_letters(a, b)?;
        Some(Name { class, length: 2 })
    } else if ends_name(d) {
        let class = three_letters(a, b, c)?;
        Some(Name { class, length: 3 })
    } else {
        None
    }
}

/// Reads the names of classes at the front of a line, each but the last with one space after it, up to a `;`. Replaces
/// the list by their units, and returns the index of the `;`. Returns `None` if the line begins otherwise.
pub fn read_names(line: &[u8], text: &mut Vec<Unit>) -> Option<usize>
    requires { length line.now ≤ 2 * vec_capacity text.old }
    ensures inside { IfSome result (λ end. end < length line.now) }
    ensures end { IfSome result (λ end. get_or line.now end 0 ≡ 59) }
    ensures names { IfSome result (λ end. ReadsNames (take end line.now) text.new.items) }
    ensures count { 2 * length text.new.items ≤ length line.now + 1 }
    ensures room { vec_capacity text.new ≡ vec_capacity text.old }
{
    text.clear();
    let mut at = 0;
    while let Some(Name { class, length }) = first_name(&line[at..]) {
        text.push_reserved(Unit {
            class,
            bracket: Bracket::No,
        });
        let end = at + length;
        if line[end] == b';' {
            return Some(end);
        }
        at = end + 1;
    }
    None
}
