// The smooth histogram: slots, what one more item does to the kept ones, and what they read.
#![tactic(auto)]

mod expire;
mod feeding;
mod growth;
mod prune;
mod readings;
mod slot;

pub use feeding::advance;
pub use readings::reading;
pub use slot::Slot;
