// What a running meter answers: its reading, and how a mark stands to it. Neither changes the meter.
ghost use Rattle.std.specs.Prelude.{◌≡◌};
ghost use Rattle.meter.specs.Take.{view, read};
ghost use Rattle.meter.specs.Verdicts.{judged};

use crate::Running;
use histogram::{Slot, reading};
use statistic::Statistic;

// How a mark stands to a reading.
#[derive(Clone, Copy, PartialEq, Eq, Debug)]
pub enum Verdict {
    // low is at least the mark
    Above,
    // high is less than the mark
    Below,
    // the mark lies between
    Open,
}

impl<T: Statistic> Running<'_, T> {
    // The reading, low and high.
    pub fn read(&self) -> (u64, u64)
        ensures { result ≡ read T.Statistic.model (view self.entry.now) }
    {
        reading::<T>(self.kept_slots(), self.window_start())
    }

    // How does the mark stand to the reading?
    pub fn judge(&self, mark: u64) -> Verdict
        ensures { result ≡ judged mark (read T.Statistic.model (view self.entry.now)) }
    {
        let (low, high) = self.read();
        if low >= mark {
            Verdict::Above
        } else if high < mark {
            Verdict::Below
        } else {
            Verdict::Open
        }
    }

    // The kept slots, oldest first.
    fn kept_slots(&self) -> &[Slot<T::State>]
        ensures { result.now ≡ (view self.entry.now).kept }
    {
        let kept = self.kept.min(self.slots.len());
        &self.slots[..kept]
    }
}
