// What the kept slots read: a pair, low and high. (A struct of two numbers would say no more.)
ghost use Rattle.std.specs.Prelude.{◌≡◌};
ghost use Rattle.histogram.specs.Method.{reading_of};

use crate::slot::Slot;
use statistic::Statistic;

// Exact where the first slot starts with the window; else the window lies between the first two slots.
pub fn reading<T: Statistic>(kept: &[Slot<T::State>], w: u64) -> (u64, u64)
    ensures { result ≡ reading_of T.Statistic.model w kept.now }
{
    match kept {
        [] => (0, 0),
        [first, ..] if first.start == w => {
            let value = T::value(&first.state);
            (value, value)
        }
        [first] => (0, T::value(&first.state)),
        [first, second, ..] => (T::value(&second.state), T::value(&first.state)),
    }
}
