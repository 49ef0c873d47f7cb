//! The character that begins at an offset of a text in UTF-8, from its bytes.
ghost use Rattle.std.specs.Prelude.{◌≡◌, ◌<◌, ◌≤◌, ◌↔◌, [], ◌∷◌, drop, length, IsTrue, MatchOption};
ghost use Rattle.std.specs.Str.{StartsWithNoChar};
ghost use Rattle.decoding.specs.Spelling.{BeginNoChar, Continues, IsOfBytes, IsSpelled};

/// Returns whether a byte is a continuation byte of UTF-8.
#[inline(always)]
fn continues(byte: u8) -> bool
    ensures { IsTrue result ↔ Continues byte }
{
    0x80 <= byte && byte < 0xC0
}

/// Returns the character of these two bytes, if they are well formed.
#[inline(always)]
fn of_two(x: u8, y: u8) -> Option<char>
    requires { (0x80 ≤ x) × (x < 0xE0) }
    ensures { MatchOption result (BeginNoChar (x ∷ y ∷ [])) (IsOfBytes (x ∷ y ∷ [])) }
{
    if x < 0xC2 || !continues(y) {
        return None;
    }
    char::from_u32(u32::from(x - 0xC0) * 0x40 + u32::from(y - 0x80))
}

/// Returns the character of these three bytes, if they are well formed.
#[inline(always)]
fn of_three(x: u8, y: u8, z: u8) -> Option<char>
    requires { (0xE0 ≤ x) × (x < 0xF0) }
    ensures { MatchOption result (BeginNoChar (x ∷ y ∷ z ∷ [])) (IsOfBytes (x ∷ y ∷ z ∷ [])) }
{
    if !continues(y) || !continues(z) {
        return None;
    }
    let front = u32::from(x - 0xE0) * 0x40 + u32::from(y - 0x80);
    if front < 0x20 {
        return None;
    }
    char::from_u32(front * 0x40 + u32::from(z - 0x80))
}

/// Returns the character of these four bytes, if they are well formed.
#[inline(never)]
fn of_four(x: u8, y: u8, z: u8, w: u8) -> Option<char>
    requires { 0xF0 ≤ x }
    ensures { MatchOption result (BeginNoChar (x ∷ y ∷ z ∷ w ∷ [])) (IsOfBytes (x ∷ y ∷ z ∷ w ∷ [])) }
{
    if !continues(y) || !continues(z) || !continues(w) {
        return None;
    }
    let front = u32::from(x - 0xF0) * 0x40 + u32::from(y - 0x80);
    if front < 0x10 {
        return None;
    }
    let back = u32::from(z - 0x80) * 0x40 + u32::from(w - 0x80);
    char::from_u32(front * 0x1000 + back)
}

/// Returns the character that begins at an offset and the offset after it, or none if no character begins there.
#[inline(always)]
pub fn char_at(bytes: &[u8], at: usize) -> Option<(char, usize)>
    requires { at < length bytes.now }
    ensures { MatchOption result (StartsWithNoChar (drop at bytes.now)) (IsSpelled bytes.now at) }
{
    let x = bytes[at];
    let remaining = bytes.len() - at;
    if x < 0x80 {
        Some((char::from(x), at + 1))
    } else if x < 0xE0 {
        if remaining < 2 {
            return None;
        }
        Some((of_two(x, bytes[at + 1])?, at + 2))
    } else if x < 0xF0 {
        if remaining < 3 {
            return None;
        }
        Some((of_three(x, bytes[at + 1], bytes[at + 2])?, at + 3))
    } else {
        if remaining < 4 {
            return None;
        }
        let c = of_four(x, bytes[at + 1], bytes[at + 2], bytes[at + 3])?;
        Some((c, at + 4))
    }
}
