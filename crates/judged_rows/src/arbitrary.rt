//! Arbitrary bytes.

/// Returns 4,096 bytes that begin with this one. Each of the others is 197 times the byte before it, plus the index of
/// that byte, modulo 256.
pub fn arbitrary(first: u8) -> [u8; 4096] {
    let mut bytes = [0; 4096];
    let mut byte = first;
    let mut index = 0_u8;
    for place in bytes.iter_mut() {
        *place = byte;
        byte = byte.wrapping_mul(197).wrapping_add(index);
        index = index.wrapping_add(1);
    }
    bytes
}
