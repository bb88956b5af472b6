// Peak: the largest magnitude.
ghost use Rattle.statistic.specs.Peak.{peak};
ghost use Rattle.statistic.specs.Lawful.Peak.{peak_laws};

use crate::Statistic;
use crate::samples::is_sample;
use crate::thousandths::thousandths;

pub struct Peak;

// As for Energy, `admits`, `empty` and `value` are a line each.
impl Statistic for Peak {
    type Item = i32;

    type State = u64;

    ghost model = { peak };

    ghost laws = { peak_laws };

    fn admits(item: i32) -> bool {
        is_sample(item)
    }

    fn empty() -> u64 {
        0
    }

    fn add(peak: &mut u64, item: i32) {
        if is_sample(item) {
            *peak = (*peak).max(u64::from(item.unsigned_abs()));
        }
    }

    fn value(state: &u64) -> u64 {
        *state
    }

    fn top() -> u64 {
        32768
    }

    fn cut(loss: u32) -> (u64, u64) {
        thousandths(loss)
    }
}
