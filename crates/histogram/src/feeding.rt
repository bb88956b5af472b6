// One feed, from the kept slots to the kept slots.
ghost use Rattle.std.specs.Prelude.{◌≡◌, length, take};
ghost use Rattle.histogram.specs.Method.{advanced};

use crate::expire::expire;
use crate::growth::grow;
use crate::prune::prune;
use crate::slot::Slot;
use statistic::Statistic;

// The slots lent are the kept ones and, behind them, a free one. The item goes into every kept slot, and into the free one as
// a new last slot that starts at `position`; then the slots are pruned, and those before the window's start `w` are dropped.
// Answers how many are kept at the front (a count, since the meter keeps the slots themselves), and 0 where no slot is lent.
pub fn advance<T: Statistic>(
    slots: &mut [Slot<T::State>],
    item: T::Item,
    position: u64,
    w: u64,
    loss: u32,
) -> usize
    ensures left { result ≡ length (advanced T.Statistic.model item position w loss slots.old) }
    ensures kept { take result slots.new ≡ advanced T.Statistic.model item position w loss slots.old }
{
    let Some((free, kept)) = slots.split_last_mut() else {
        return 0;
    };
    grow::<T>(kept, free, item, position);
    let pruned = prune::<T>(slots, T::cut(loss));
    expire(&mut slots[..pruned], w)
}
