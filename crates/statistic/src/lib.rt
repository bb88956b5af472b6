// A statistic over a list of items, and the three kinds that the pack ships.
#![tactic(auto)]

ghost use Rattle.std.specs.Prelude.{◌≡◌, []};
ghost use Rattle.statistic.specs.Model.{Model, Laws};

pub mod energy;
pub mod hit;
pub mod notes;
pub mod peak;
mod samples;
#[cfg(test)]
mod tests;
mod thousandths;

// What a meter needs of a statistic. `model` says what it means, `laws` that it keeps the laws of the method, and each
// function is tied to the model. Adding and valuing must do with whatever a slot may hold.
pub trait Statistic {
    type Item: Copy;

    type State: Copy;

    ghost model: { Model Self.Item Self.State };

    ghost laws: { Laws model };

    // Does the statistic take this item?
    fn admits(item: Self::Item) -> bool
        ensures { result ≡ model.admits item };

    // The state for no items.
    fn empty() -> Self::State
        ensures { result ≡ model.state [] };

    // One item more.
    fn add(state: &mut Self::State, item: Self::Item)
        ensures { state.new ≡ model.add state.old item };

    // The number that the state tells.
    fn value(state: &Self::State) -> u64
        ensures { result ≡ model.value state.now };

    // A number that no value of a list passes.
    fn top() -> u64
        ensures { result ≡ model.top };

    // The fraction by which slots are pruned at a loss, as numerator and denominator. A pair, since the two numbers are bound by
    // the laws alone, at the losses of presets: a struct of them would have no invariant to hold.
    fn cut(loss: u32) -> (u64, u64)
        ensures { result ≡ model.cut loss };
}
