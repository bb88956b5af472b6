// One sheet played on one meter: from the bytes of the sheet to the bytes that it prints.
#![tactic(auto)]

mod events;
mod playing;
mod saying;
#[cfg(test)]
mod tests;

pub use playing::{MOST_BYTES, bytes_enough, play};
