// The shortest host: slots, a peak meter over them, one take of five samples, of which one is refused, and its reading.
#![tactic(auto)]

use crate::held::Held;
use histogram::Slot;
use meter::Stopped;
use preset::{Preset, slots_wanted};
use statistic::peak::Peak;
use std::io;

mod held;

fn main(rt: HostRuntime) -> io::Result<()> {
    let mut slots = [Slot { start: 0, state: 0 }; 3];
    let preset = Preset::new(2, 500).unwrap();
    let wanted = slots_wanted::<Peak>(&preset);
    println!(rt; "slots wanted: {wanted}")?;
    let mut meter = Held::Stopped(Stopped::<Peak>::make(&mut slots));
    meter.change(preset);
    let mut meter = meter.start();
    for sample in [-8, 4, 5, 40000, 1] {
        match meter.offer(sample) {
            Ok(position) => println!(rt; "{sample} is item {position}")?,
            Err(refusal) => println!(rt; "{sample} is {refusal}")?,
        }
    }
    let (low, high) = meter.read();
    println!(rt; "the last two items peak from {low} to {high}")
}
