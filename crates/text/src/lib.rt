// Decimal numbers, lines and short texts, all as bytes: what the preset text and the take sheet are read and written with.
#![tactic(auto)]

mod line;
mod number;
mod short;
#[cfg(test)]
mod tests;

pub use line::{next_line, split_once};
pub use number::read_number;
pub use short::Short;
