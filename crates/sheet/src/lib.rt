// The lines of a take sheet: the events that are read from it and the answers that are written for it.
#![tactic(auto)]

mod answer;
mod answers;
mod event;
mod events;
mod items;
#[cfg(test)]
mod tests;

pub use answer::Answer;
pub use answers::{answer_lines, write_answer};
pub use event::Event;
pub use events::read_event;
pub use items::ItemText;
