//! Bytes written at once, or piece by piece if the writer doesn't take them at once.
ghost use Rattle.std.specs.Prelude.{◌≡◌, ◌<◌, ◌≤◌, length, take, drop, IfErr, OnOk};
ghost use Rattle.std.specs.Io.KnownBytes.{Appends};

use crate::output::Output;
use std::io;
use std::io::{ErrorKind, Write};

/// Where a text is cut if a writer doesn't take it at once.
#[derive(Clone, Copy, Debug, PartialEq, Eq)]
pub enum Pieces {
    /// Each character of UTF-8 is a piece.
    Characters,
    /// Each run of digits is a piece, and so is each run of other bytes.
    Numbers,
    /// Each blank, each line feed and each word is a piece. The zeros that pad a word's digits are one of their own.
    Words,
    /// As `Words`, but ` x` is one piece.
    Items,
}

/// Returns how many bytes come before the first byte for which `is_so` is false.
fn run_length<P: Fn(u8) -> bool>(bytes: &[u8], is_so: P) -> usize
    requires { (f : _) (x : _) → P.pre f x }
    ensures { result ≤ length bytes.now }
{
    match bytes.iter().position(|byte| !is_so(*byte)) {
        Some(at) => at,
        None => bytes.len(),
    }
}

/// Returns whether a word ends before this byte.
fn ends_word(byte: u8) -> bool {
    byte == b' ' || byte == b'\n'
}

/// Returns the length of a word's first piece: of the zeros before its last byte, or else of the word.
fn first_of_word(word: &[u8]) -> usize
    requires { 0 < length word.now }
    ensures some { 0 < result }
    ensures within { result ≤ length word.now }
{
    let zeros = run_length(&word[..word.len() - 1], |byte| byte == b'0');
    if zeros > 0 { zeros } else { word.len() }
}

/// Returns the length of the first piece of these bytes, cut as `Words`.
fn first_of_words(bytes: &[u8]) -> usize
    requires { 0 < length bytes.now }
    ensures some { 0 < result }
    ensures within { result ≤ length bytes.now }
{
    match run_length(bytes, |byte| !ends_word(byte)) {
        0 => 1,
        len => first_of_word(&bytes[..len]),
    }
}

/// Returns the length of the first piece of these bytes.
fn first_piece(bytes: &[u8], pieces: Pieces) -> usize
    requires { 0 < length bytes.now }
    ensures some { 0 < result }
    ensures within { result ≤ length bytes.now }
{
    let is_digit = bytes[0].is_ascii_digit();
    match pieces {
        Pieces::Characters => 1 + run_length(&bytes[1..], |byte| byte & 0xC0 == 0x80),
        Pieces::Numbers => 1 + run_length(&bytes[1..], |byte| byte.is_ascii_digit() == is_digit),
        Pieces::Items if bytes.starts_with(b" x") => 2,
        Pieces::Items | Pieces::Words => first_of_words(bytes),
    }
}

/// Writes the rest of the bytes piece by piece. The writer has taken the first `taken` bytes.
#[cold]
#[inline(never)]
fn write_pieces<W: Output>(w: &mut W, bytes: &[u8], taken: usize, pieces: Pieces) -> io::Result<()>
    requires { taken ≤ length bytes.now }
    ensures written { OnOk result (Appends (W.contents w.old) (W.contents w.new) (drop taken bytes.now)) }
    ensures failed { IfErr result (W.failed_with w.new) }
{
    let mut start = 0;
    let mut taken = taken;
    while start < bytes.len() {
        start += first_piece(&bytes[start..], pieces);
        if taken < start {
            w.write_bytes(&bytes[taken..start])?;
            taken = start;
        }
    }
    Ok(())
}

/// Offers bytes to the writer once, and again whenever it is interrupted. Returns how many bytes the writer took.
#[inline(always)]
fn offer<W: Write>(w: &mut W, bytes: &[u8]) -> usize
    ensures within { result ≤ length bytes.now }
    ensures taken { Appends (W.contents w.old) (W.contents w.new) (take result bytes.now) }
{
    for _ in 0..u64::MAX {
        match w.write(bytes) {
            Ok(taken) => return taken,
            Err(error) if error.kind() == ErrorKind::Interrupted => {}
            Err(_) => return 0,
        }
    }
    0
}

/// Writes bytes with one call of `write`, which is repeated if it is interrupted. If the writer doesn't take all of
/// them, writes the rest piece by piece, and returns the error of the first piece that fails.
#[inline(always)]
pub fn hand_over<W: Output>(w: &mut W, bytes: &[u8], pieces: Pieces) -> io::Result<()>
    ensures written { OnOk result (Appends (W.contents w.old) (W.contents w.new) bytes.now) }
    ensures failed { IfErr result (W.failed_with w.new) }
{
    if bytes.is_empty() {
        return Ok(());
    }
    let taken = offer(w, bytes);
    if taken == bytes.len() {
        return Ok(());
    }
    write_pieces(w, bytes, taken, pieces)
}
