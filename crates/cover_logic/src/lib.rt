//! Covers: Boolean functions as rows of literals, their value, and their exact ternary extension.
//!
//! It stands on `cyc_base`, for the three values and their order. The layer above uses that `value` is
//! the function of the rows, that `extend` is its exact extension, and that this is monotone (`laws`).
#![tactic(auto)]

mod cover;
mod extend;
mod held;
pub mod laws;
mod row;
mod value;

pub use cover::{Cover, CoverFault};
pub use row::{Lit, Row};
