// What an event line asks of the meter.
#[derive(Clone, Copy, PartialEq, Eq, Debug)]
pub enum Event<I> {
    // feed an item
    Feed(I),
    // read
    Read,
    // what does a reading say of this mark?
    Mark(u64),
    // stop, and start another take
    Restart,
}
