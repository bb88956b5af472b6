// The preset text: a kind and a preset as three lines that hosts keep and people read.
#![tactic(auto)]

mod header;
mod kind;
mod line;
mod reading;
mod setup;
#[cfg(test)]
mod tests;
mod writing;

pub use header::read_header;
pub use kind::Kind;
pub use reading::read;
pub use setup::Setup;
pub use writing::write;
