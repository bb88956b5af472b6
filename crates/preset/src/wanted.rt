// How many slots a meter wants at a preset: with that many it never runs out.
ghost use Rattle.std.specs.Prelude.{◌≡◌, ◌*◌, ◌^◌, ◌<◌};
ghost use Rattle.preset.specs.Questions.{view};
ghost use Rattle.preset.specs.Wanted.{most_kept, wanted, steps, Counts, Proper};

use crate::Preset;
use statistic::Statistic;

// One slot more than a meter ever keeps: a new item takes a slot before the old ones are pruned.
pub fn slots_wanted<T: Statistic>(preset: &Preset) -> usize
    ensures value { result ≡ wanted T.Statistic.model (view preset.now) }
    ensures count { Counts (T.Statistic.model.cut preset.now.loss) T.Statistic.model.top (steps (T.Statistic.model.cut preset.now.loss) T.Statistic.model.top) }
{
    most_kept(T::cut(preset.loss()), T::top(), preset.window()) + 1
}

// The walk down from the top stops as soon as the window is the smaller number, so it takes at most half the window's
// turns, however many steps the top has. A `while`: `slots` is its answer and no index, and v ends it too.
fn most_kept(cut: (u64, u64), top: u64, window: u32) -> usize
    requires { Proper cut × (top * cut.1 < 2 ^ 63) }
    ensures value { result ≡ most_kept cut top window }
    ensures count { Counts cut top (steps cut top) }
{
    let (b, d) = cut;
    let window = window as usize;
    let mut v = top;
    let mut slots = 2;
    while v > 0 && slots < window {
        v = ((d - b) * v - 1) / d;
        slots += 2;
    }
    slots.min(window)
}
