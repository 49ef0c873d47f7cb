//! The ends of lines, in the text and in the orders.
/// Where a line ends and the next one begins: its place in the text, and its place in the concatenation of all lines'
/// orders. A text of k lines has k + 1 bounds; the first has 0 in both fields.
#[derive(Clone, Copy, Debug, PartialEq, Eq)]
pub struct Bound {
    pub position: u32,
    pub order: u32,
}
