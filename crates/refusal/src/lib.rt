// Why a call of the pack refuses: one enum for all calls, each case named by its content and known to hosts by its number.
#![tactic(auto)]

ghost use Rattle.std.specs.Prelude.{◌≡◌, Some};
ghost use Rattle.refusal.specs.Numbers.{number_of};
ghost use Rattle.refusal.specs.Told.{refusal_words};

use std::error::Error;
use std::fmt;

#[cfg(test)]
mod tests;

#[derive(Clone, Copy, PartialEq, Eq, Debug)]
pub enum Refusal {
    // a preset's window is not from 1 to 1,048,576
    WindowOutOfRange = 1,
    // a preset's loss is not from 1 to 999
    LossOutOfRange = 2,
    // the statistic's test turns the item down
    ItemNotAdmitted = 3,
    // the take has 2^40 items already
    TakeAtLastPosition = 4,
    // every slot given is in use
    NoFreeSlot = 5,
    // a text has not the three lines of a preset
    NotThreeLines = 7,
    // a preset text names a kind that the pack does not have
    UnknownKind = 8,
    // a number of a preset text is not well formed
    MalformedNumber = 9,
    // an event line of a sheet is not well formed, or not ended
    MalformedEvent = 10,
    // what is to be written does not fit the buffer
    BufferTooShort = 11,
    // a sheet has more than 65,536 bytes
    SheetTooLong = 12,
}

impl Refusal {
    // The number by which hosts and answer lines know the refusal. (The name says more than `u8::from` would.)
    pub fn number(self) -> u8
        ensures { result ≡ number_of self }
    {
        self as u8
    }
}

// What a person reads of a refusal.
impl fmt::Display for Refusal {
    ghost output = { λ e. Some (refusal_words e) };

    fn fmt<W: fmt::Write>(&self, f: &mut fmt::Formatter<W>) -> fmt::Result {
        write!(f, "refused, number {}", self.number())
    }
}

// A host may pass a refusal on with `?`, as any error.
impl Error for Refusal {}
