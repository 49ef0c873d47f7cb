//! Three small files in the forms of DerivedBidiClass.txt, BidiBrackets.txt and BidiMirroring.txt, for examples and
//! tests.

/// Classes of some letters, digits, brackets, separators and explicit formatting characters; all others are L.
pub const CLASSES: &[u8] = b"# @missing: 0000..10FFFF; Left_To_Right
000A ; B
000D ; B
0020 ; WS
0028..0029 ; ON
002C ; CS
0031..0032 ; EN
003C ; ON
003E ; ON
005B ; ON
005D ; ON
05D0..05D1 ; R
0627 ; AL
202A ; LRE
202C ; PDF
2329..232A ; ON
3008..3009 ; ON
";

/// Round, square and angle brackets.
pub const BRACKETS: &[u8] = b"0028; 0029; o
0029; 0028; c
005B; 005D; o
005D; 005B; c
2329; 232A; o
232A; 2329; c
3008; 3009; o
3009; 3008; c
";

/// The mirror images of round and square brackets, and of the signs for less and greater.
pub const MIRRORS: &[u8] = b"0028; 0029
0029; 0028
003C; 003E
003E; 003C
005B; 005D
005D; 005B
";
