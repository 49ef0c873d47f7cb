//! The character that begins at an offset of well-formed UTF-8, read without tests of its bytes.
ghost use Rattle.std.specs.Prelude.{ℕ, ◌≡◌, ◌<◌, ◌≤◌, ◌+◌, ◌*◌, [], ◌∷◌, length, slice_index, take};
ghost use Rattle.std.specs.Str.{IsUtf8};
ghost use Rattle.decoding.specs.Spelling.{IsInBlock, IsOfBytes, IsSpelled};

#[inline(always)]
fn of_two(x: u8, y: u8) -> char
    requires { (c : ℕ) × IsOfBytes (x ∷ y ∷ []) c }
    ensures { IsOfBytes (x ∷ y ∷ []) result }
{
    char::from_u32(u32::from(x - 0xC0) * 0x40 + u32::from(y - 0x80)).unwrap()
}

#[inline(always)]
fn of_three(x: u8, y: u8, z: u8) -> char
    requires { (c : ℕ) × IsOfBytes (x ∷ y ∷ z ∷ []) c }
    ensures { IsOfBytes (x ∷ y ∷ z ∷ []) result }
{
    let front = u32::from(x - 0xE0) * 0x40 + u32::from(y - 0x80);
    char::from_u32(front * 0x40 + u32::from(z - 0x80)).unwrap()
}

#[inline(never)]
fn of_four(x: u8, y: u8, z: u8, w: u8) -> char
    requires { (c : ℕ) × IsOfBytes (x ∷ y ∷ z ∷ w ∷ []) c }
    ensures { IsOfBytes (x ∷ y ∷ z ∷ w ∷ []) result }
{
    let front = u32::from(x - 0xF0) * 0x40 + u32::from(y - 0x80);
    let back = u32::from(z - 0x80) * 0x40 + u32::from(w - 0x80);
    char::from_u32(front * 0x1000 + back).unwrap()
}

/// Returns the character that begins at an offset, and the offset after it.
#[inline(always)]
pub fn known_char_at(bytes: &[u8], at: usize) -> (char, usize)
    requires inside { at < length bytes.now }
    requires well_formed { IsUtf8 bytes.now }
    requires front { IsUtf8 (take at bytes.now) }
    ensures { IsSpelled bytes.now at result }
{
    let x = bytes[at];
    if x < 0x80 {
        (char::from(x), at + 1)
    } else if x < 0xE0 {
        (of_two(x, bytes[at + 1]), at + 2)
    } else if x < 0xF0 {
        (of_three(x, bytes[at + 1], bytes[at + 2]), at + 3)
    } else {
        let c = of_four(x, bytes[at + 1], bytes[at + 2], bytes[at + 3]);
        (c, at + 4)
    }
}

/// A character of a text, by the block of 128 code points that has it.
#[derive(Clone, Copy)]
pub struct InBlock {
    /// Which block it is.
    pub block: usize,
    /// The character's index in the block.
    pub index: u8,
    /// The offset after the character.
    pub following: usize,
}

/// Returns the ASCII character that begins at an offset, by its block.
#[inline(always)]
pub fn one_at(bytes: &[u8], at: usize) -> InBlock
    requires inside { at < length bytes.now }
    requires ascii { slice_index bytes.now at < 0x80 }
    ensures { IsInBlock bytes.now at result }
{
    InBlock {
        block: 0,
        index: bytes[at],
        following: at + 1,
    }
}

/// Returns the character of two bytes that begins at an offset, by its block.
#[inline(always)]
pub fn two_at(bytes: &[u8], at: usize) -> InBlock
    requires inside { at < length bytes.now }
    requires well_formed { IsUtf8 bytes.now }
    requires front { IsUtf8 (take at bytes.now) }
    requires two { (0x80 ≤ slice_index bytes.now at) × (slice_index bytes.now at < 0xE0) }
    ensures { IsInBlock bytes.now at result }
{
    let first = bytes[at];
    InBlock {
        block: usize::from((first - 0xC0) / 2),
        index: first.wrapping_mul(0x40).wrapping_add(bytes[at + 1]) % 0x80,
        following: at + 2,
    }
}

/// Returns the character of three bytes that begins at an offset, by its block.
#[inline(always)]
pub fn three_at(bytes: &[u8], at: usize) -> InBlock
    requires inside { at < length bytes.now }
    requires well_formed { IsUtf8 bytes.now }
    requires front { IsUtf8 (take at bytes.now) }
    requires three { (0xE0 ≤ slice_index bytes.now at) × (slice_index bytes.now at < 0xF0) }
    ensures { IsInBlock bytes.now at result }
{
    let second = bytes[at + 1];
    InBlock {
        block: usize::from(bytes[at] - 0xE0) * 32 + usize::from((second - 0x80) / 2),
        index: second.wrapping_mul(0x40).wrapping_add(bytes[at + 2]) % 0x80,
        following: at + 3,
    }
}

/// Returns the character of four bytes that begins at an offset, by its block.
// Inlined, blocks of ASCII take more instructions.
#[inline(never)]
pub fn four_at(bytes: &[u8], at: usize) -> InBlock
    requires inside { at < length bytes.now }
    requires well_formed { IsUtf8 bytes.now }
    requires front { IsUtf8 (take at bytes.now) }
    requires four { 0xF0 ≤ slice_index bytes.now at }
    ensures { IsInBlock bytes.now at result }
{
    let front = usize::from(bytes[at] - 0xF0) * 64 + usize::from(bytes[at + 1] - 0x80);
    let third = bytes[at + 2];
    InBlock {
        block: front * 32 + usize::from((third - 0x80) / 2),
        index: third.wrapping_mul(0x40).wrapping_add(bytes[at + 3]) % 0x80,
        following: at + 4,
    }
}
