// The calls of a stopped meter, and the stop that leads back to one. What each leaves of the preset and the slots is its own
// promise, so each says it for itself.
ghost use Rattle.std.specs.Prelude.{◌≡◌, [], length};
ghost use Rattle.preset.specs.Questions.{view as numbers};
ghost use Rattle.meter.specs.Take.{view, begun, Takes};

use crate::{Running, Stopped};
use histogram::Slot;
use preset::Preset;
use statistic::Statistic;

impl<'a, T: Statistic> Stopped<'a, T> {
    // A meter over these slots, however many there are and whatever they hold, with window 1 and loss 500.
    pub fn make(slots: &'a mut [Slot<T::State>]) -> Stopped<'a, T>
        ensures preset { numbers result.preset ≡ (1, 500) }
        ensures slots { result.slots.now ≡ slots.old }
    {
        let preset = Preset::new(1, 500).unwrap();
        Stopped { preset, slots }
    }

    // Gives the meter a preset.
    pub fn load(&mut self, preset: Preset)
        ensures preset { self.new.preset ≡ preset }
        ensures slots { self.new.slots.now ≡ self.old.slots.now }
    {
        self.preset = preset;
    }

    // Begins a take: no slot is kept, whatever the slots held, and no item is accepted yet.
    pub fn start(self) -> Running<'a, T>
        ensures begins { view result ≡ begun (length self.entry.slots.now) (numbers self.entry.preset) }
        ensures preset { result.preset ≡ self.entry.preset }
        ensures count { result.kept ≡ 0 }
        ensures slots { result.slots.now ≡ self.entry.slots.now }
        ensures takes { Takes T.Statistic.model [] (view result) }
    {
        let Stopped { slots, preset } = self;
        Running {
            slots,
            kept: 0,
            now: 0,
            preset,
        }
    }
}

impl<'a, T: Statistic> Running<'a, T> {
    // Ends the take. The meter keeps its preset.
    pub fn stop(self) -> Stopped<'a, T>
        ensures preset { result.preset ≡ self.entry.preset }
        ensures slots { result.slots.now ≡ self.entry.slots.now }
    {
        let Running {
            slots,
            kept: _,
            now: _,
            preset,
        } = self;
        Stopped { slots, preset }
    }
}
