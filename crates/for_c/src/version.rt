//! The version of the product.

/// The version of the product, as in the header and the command.
pub const VERSION: &str = "1.1.0";
