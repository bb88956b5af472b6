// The meter: stopped and running, as two types. A stopped meter takes a preset and no item, a running one takes items and no
// preset. This file holds the types; `takes`, `feeding` and `answers` have their calls.
#![tactic(auto)]

ghost use Rattle.std.specs.Prelude.{◌≡◌};

use histogram::Slot;
use preset::Preset;
use statistic::Statistic;

mod answers;
mod feeding;
mod takes;
#[cfg(test)]
mod tests;

pub use answers::Verdict;

// A meter between takes. The slots are lent to it, and hold anything.
pub struct Stopped<'a, T: Statistic> {
    slots: &'a mut [Slot<T::State>],
    preset: Preset,
}

// A meter in a take: the kept slots lie at the front of those lent, and `now` counts the items that the take accepted. The slots
// are fixed memory, lent by the host, so `kept` stands beside them. No ghost field says that it is within them: with one, a
// host's function that is passed a running meter and lets it go has no proof.
pub struct Running<'a, T: Statistic> {
    slots: &'a mut [Slot<T::State>],
    kept: usize,
    now: u64,
    preset: Preset,
}

// A meter may be let go at any time: its slots are their owner's again, as they are. By hand, since where `Drop` is derived
// nothing proves that of a call of `drop`.
impl<T: Statistic> Drop for Stopped<'_, T> {
    fn drop(self)
        ensures { self.exit.0.now ≡ self.entry.slots.now }
    {
        let Stopped {
            slots: _,
            preset: _,
        } = self;
    }
}

impl<T: Statistic> Drop for Running<'_, T> {
    fn drop(self)
        ensures { self.exit.0.now ≡ self.entry.slots.now }
    {
        let Running {
            slots: _,
            kept: _,
            now: _,
            preset: _,
        } = self;
    }
}
