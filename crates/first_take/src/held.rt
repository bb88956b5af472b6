// A meter that a host keeps in one place for both of its states. Each call says by a `requires` in which state it may come: a
// program that feeds a stopped meter or loads a running one is not proved. (On `Stopped` and `Running` themselves there is no
// such call at all, and the program does not compile: the types are the plainer form, but an edit that makes a wrong call
// keeps its meaning only where that compiles.)
ghost use Rattle.first_take.specs.Held.{IsStopped, IsRunning, Loads, Starts, Feeds, Reads};

use meter::{Running, Stopped};
use preset::Preset;
use refusal::Refusal;
use statistic::peak::Peak;

#[derive(Drop)]
pub(crate) enum Held<'a> {
    Stopped(Stopped<'a, Peak>),
    Running(Running<'a, Peak>),
}

impl<'a> Held<'a> {
    pub(crate) fn change(&mut self, preset: Preset)
        requires { IsStopped self.old }
        ensures state { IsStopped self.new }
        ensures loads { Loads self.old preset self.new }
    {
        match self {
            Held::Stopped(meter) => meter.load(preset),
            Held::Running(_) => unreachable!(),
        }
    }

    pub(crate) fn start(self) -> Held<'a>
        requires { IsStopped self }
        ensures state { IsRunning result }
        ensures starts { Starts self.entry result }
    {
        match self {
            Held::Stopped(meter) => Held::Running(meter.start()),
            Held::Running(_) => unreachable!(),
        }
    }

    pub(crate) fn offer(&mut self, sample: i32) -> Result<u64, Refusal>
        requires { IsRunning self.old }
        ensures state { IsRunning self.new }
        ensures feeds { Feeds self.old sample result self.new }
    {
        match self {
            Held::Stopped(_) => unreachable!(),
            Held::Running(meter) => meter.feed(sample),
        }
    }

    pub(crate) fn read(&self) -> (u64, u64)
        requires { IsRunning self.now }
        ensures { Reads self.now result }
    {
        match self {
            Held::Stopped(_) => unreachable!(),
            Held::Running(meter) => meter.read(),
        }
    }
}
