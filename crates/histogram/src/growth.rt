// One more item: for every kept slot, and for a new one.
ghost use Rattle.std.specs.Prelude.{◌≡◌, map};
ghost use Rattle.histogram.specs.Method.{with_item, empty_slot};

use crate::slot::Slot;
use statistic::Statistic;

// The item is added to the state of each kept slot, and the free one becomes a new slot that starts at `position` and stands
// for this item.
pub(crate) fn grow<T: Statistic>(
    kept: &mut [Slot<T::State>],
    free: &mut Slot<T::State>,
    item: T::Item,
    position: u64,
)
    ensures older { kept.new ≡ map (with_item T.Statistic.model item) kept.old }
    ensures newest { free.new ≡ with_item T.Statistic.model item (empty_slot T.Statistic.model position) }
{
    for slot in kept.iter_mut() {
        T::add(&mut slot.state, item);
    }
    let mut state = T::empty();
    T::add(&mut state, item);
    *free = Slot {
        start: position,
        state,
    };
}
