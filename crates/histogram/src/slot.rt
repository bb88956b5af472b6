// A slot: one suffix of the take, by its first position and its state.

#[derive(Clone, Copy)]
pub struct Slot<S> {
    // the position of the first item that the state stands for
    pub start: u64,
    pub state: S,
}
