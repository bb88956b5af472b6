// Pruning: of slots whose values are near each other, only the ends are kept.
ghost use Rattle.std.specs.Prelude.{◌≡◌, ◌≤◌, length, take};
ghost use Rattle.histogram.specs.Method.{near_values, near_by, thinned};
ghost use Rattle.histogram.specs.Thins.{Thins};

use crate::slot::Slot;
use statistic::Statistic;

// Is the newer value near the older one? In 128 bits, so that no product is too large whatever the slots hold.
fn near(cut: (u64, u64), older: u64, newer: u64) -> bool
    ensures { result ≡ near_values cut older newer }
{
    let (b, d) = cut;
    u128::from(d.saturating_sub(b)) * u128::from(older) <= u128::from(d) * u128::from(newer)
}

// Prunes the slots by a cut, and answers how many are kept at the front. One pass, and each slot's value is worked out once.
// (A function of its own in the program too: inside a large one, its loop keeps the anchor in memory and takes longer.)
#[inline(never)]
pub(crate) fn prune<T: Statistic>(slots: &mut [Slot<T::State>], cut: (u64, u64)) -> usize
    ensures within { result ≤ length slots.old }
    ensures left { result ≡ length (thinned (near_by T.Statistic.model cut) slots.old) }
    ensures kept { take result slots.new ≡ thinned (near_by T.Statistic.model cut) slots.old }
    ensures thins { Thins (near_by T.Statistic.model cut) slots.old (take result slots.new) }
{
    let Some(first) = slots.first() else {
        return 0;
    };
    let mut anchor = T::value(&first.state);
    // the value of the last kept slot, where that is near the anchor and not yet known to stay
    let mut held = None;
    let mut count = 1;
    // An index for the slot that is read and one for the place that is written: no method of a slice drops elements of it.
    for i in 1..slots.len() {
        let value = T::value(&slots[i].state);
        let mut close = near(cut, anchor, value);
        if let Some(last) = held {
            if close {
                count -= 1; // the held slot lies between two near ones: it goes
            } else {
                anchor = last; // the held slot is the last near one: it is the next anchor
                close = near(cut, anchor, value);
            }
        }
        slots[count] = slots[i];
        count += 1;
        if !close {
            anchor = value;
        }
        held = close.then_some(value);
    }
    count
}
