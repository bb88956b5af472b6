// Dropping the slots that the window has passed.
ghost use Rattle.std.specs.Prelude.{◌≡◌, ◌≤◌, length, take, drop, nat_le};
ghost use Rattle.std.specs.List.{prefix_len};
ghost use Rattle.histogram.specs.Method.{unexpired};

use crate::slot::Slot;

// How many slots the window has passed: all before the last one that starts at or before `w`.
fn passed<S>(slots: &[Slot<S>], w: u64) -> usize
    ensures within { result ≤ length slots.now }
    ensures count { result ≡ prefix_len (λ slot. nat_le slot.start w) (drop 1 slots.now) }
{
    slots
        .iter()
        .skip(1)
        .take_while(|slot| slot.start <= w)
        .count()
}

// Drops the slots that the window has passed, and answers how many are left at the front.
pub(crate) fn expire<S: Copy>(slots: &mut [Slot<S>], w: u64) -> usize
    ensures left { result ≡ length (unexpired w slots.old) }
    ensures kept { take result slots.new ≡ unexpired w slots.old }
{
    let gone = passed(slots, w);
    if gone > 0 {
        slots.copy_within(gone.., 0);
    }
    slots.len() - gone
}
