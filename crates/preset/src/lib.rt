// What a meter measures with: the window, in items, and the loss that its readings may have, in thousandths. The file
// holds the type alone, with its invariant; `questions` has its calls, and `wanted` the slots that a meter wants at it.
#![tactic(auto)]

ghost use Rattle.std.specs.Prelude.{◌≤◌};
ghost use Rattle.statistic.specs.Model.{IsLoss};

mod questions;
#[cfg(test)]
mod tests;
mod wanted;

pub use wanted::slots_wanted;

// A window from 1 to 1,048,576 and a loss from 1 to 999.
#[derive(Clone, Copy, PartialEq, Eq, Debug)]
pub struct Preset {
    window: u32,
    loss: u32,
    ghost spans: { (1 ≤ window) × (window ≤ 1048576) },
    ghost loses: { IsLoss loss },
}
