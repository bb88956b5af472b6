// What an event is answered, where it is answered at all.
use meter::Verdict;
use refusal::Refusal;

#[derive(Clone, Copy, PartialEq, Eq, Debug)]
pub enum Answer {
    // the bounds, low and high
    Reading(u64, u64),
    // what a reading says of a mark
    Judged(Verdict),
    Refused(Refusal),
}
