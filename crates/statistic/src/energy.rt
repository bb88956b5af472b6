// Energy: the sum of the squares, up to a cap.
ghost use Rattle.statistic.specs.Energy.{energy};
ghost use Rattle.statistic.specs.Lawful.Energy.{energy_laws};

use crate::Statistic;
use crate::samples::is_sample;
use crate::thousandths::thousandths;

// No energy passes this.
const CAP: u64 = 1 << 50;

pub struct Energy;

// `admits`, `empty` and `value` are Peak's too, a line each: a trait of both, with laws that say so, would be longer.
impl Statistic for Energy {
    type Item = i32;

    type State = u64;

    ghost model = { energy };

    ghost laws = { energy_laws };

    fn admits(item: i32) -> bool {
        is_sample(item)
    }

    fn empty() -> u64 {
        0
    }

    fn add(energy: &mut u64, item: i32) {
        if is_sample(item) {
            let size = item.unsigned_abs();
            *energy = (*energy).saturating_add(u64::from(size * size)).min(CAP);
        }
    }

    fn value(state: &u64) -> u64 {
        *state
    }

    fn top() -> u64 {
        CAP
    }

    fn cut(loss: u32) -> (u64, u64) {
        thousandths(loss)
    }
}
