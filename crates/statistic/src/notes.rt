// Notes: how many distinct notes were hit.
ghost use Rattle.statistic.specs.Notes.{notes};
ghost use Rattle.statistic.specs.Lawful.Notes.{notes_laws};

use crate::Statistic;
use crate::hit::{Hit, is_hit};
use crate::thousandths::thousandths;

// A mark for each note: those below 64 in the low word, the others in the high word.
#[derive(Clone, Copy)]
pub struct Marks {
    low: u64,
    high: u64,
}

pub struct Notes;

impl Statistic for Notes {
    type Item = Hit;

    type State = Marks;

    ghost model = { notes };

    ghost laws = { notes_laws };

    fn admits(item: Hit) -> bool {
        is_hit(item)
    }

    fn empty() -> Marks {
        Marks { low: 0, high: 0 }
    }

    fn add(marks: &mut Marks, item: Hit) {
        if is_hit(item) {
            if item.note < 64 {
                marks.low |= 1 << item.note;
            } else {
                marks.high |= 1 << (item.note - 64);
            }
        }
    }

    fn value(marks: &Marks) -> u64 {
        u64::from(marks.low.count_ones() + marks.high.count_ones())
    }

    fn top() -> u64 {
        128
    }

    fn cut(loss: u32) -> (u64, u64) {
        thousandths(loss)
    }
}
