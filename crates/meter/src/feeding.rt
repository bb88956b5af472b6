// Feeding a running meter.
ghost use Rattle.std.specs.Prelude.{◌≡◌, ◌+◌, ◌^◌, ◌<◌, true, false, List, [], ◌∷◌, ◌++◌, length, is_ok, nat_lt};
ghost use Rattle.histogram.specs.Method.{window_start};
ghost use Rattle.meter.specs.Take.{view, feed_answer, after_feed, accepted, items_after, Takes};

use crate::Running;
use histogram::advance;
use refusal::Refusal;
use statistic::Statistic;

// The last position of a take.
const LAST: u64 = 1 << 40;

impl<T: Statistic> Running<'_, T> {
    // Offers one item, and answers its position. A refusal changes nothing.
    pub fn feed(&mut self, item: T::Item) -> Result<u64, Refusal>
        ensures answer { result ≡ feed_answer T.Statistic.model (view self.entry.now) item }
        ensures after { view self.exit.now ≡ after_feed T.Statistic.model (view self.entry.now) item }
        ensures preset { self.exit.now.preset ≡ self.entry.now.preset }
        ensures count { is_ok result ≡ true → self.exit.now.kept ≡ length (view self.exit.now).kept }
        ensures refused { is_ok result ≡ false → self.exit.now ≡ self.entry.now }
        ensures takes { (items : List T.Item) → Takes T.Statistic.model items (view self.entry.now) → Takes T.Statistic.model (items_after items item result) (view self.exit.now) }
    {
        if !T::admits(item) {
            return Err(Refusal::ItemNotAdmitted);
        }
        if self.now >= LAST {
            return Err(Refusal::TakeAtLastPosition);
        }
        if !self.has_room() {
            return Err(Refusal::NoFreeSlot);
        }
        Ok(self.accept(item))
    }

    // Is a slot free?
    fn has_room(&self) -> bool
        ensures value { result ≡ nat_lt (length (view self.entry.now).kept) (view self.entry.now).given }
        ensures within { result ≡ true → self.entry.now.kept < length self.entry.now.slots.now }
    {
        self.kept < self.slots.len()
    }

    // Takes an item that passed the questions, and answers its position.
    fn accept(&mut self, item: T::Item) -> u64
        requires admitted { T.Statistic.model.admits item ≡ true }
        requires early { self.now.now < 2 ^ 40 }
        requires room { self.now.kept < length self.now.slots.now }
        ensures answer { result ≡ self.entry.now.now + 1 }
        ensures after { view self.exit.now ≡ accepted T.Statistic.model (view self.entry.now) item }
        ensures preset { self.exit.now.preset ≡ self.entry.now.preset }
        ensures count { self.exit.now.kept ≡ length (view self.exit.now).kept }
        ensures takes { (items : List T.Item) → Takes T.Statistic.model items (view self.entry.now) → Takes T.Statistic.model (items ++ item ∷ []) (view self.exit.now) }
    {
        let kept = self.kept;
        let now = self.now + 1;
        self.now = now;
        let w = self.window_start();
        let loss = self.preset.loss();
        self.kept = advance::<T>(&mut self.slots[0..kept + 1], item, now, w, loss);
        now
    }

    // The first position of the window.
    pub(crate) fn window_start(&self) -> u64
        ensures { result ≡ window_start self.entry.now.preset.window self.entry.now.now }
    {
        self.now.saturating_sub(u64::from(self.preset.window())) + 1
    }
}
