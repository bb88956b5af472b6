// Takes from beginning to end, on a peak meter.
use crate::{Running, Stopped, Verdict};
use histogram::Slot;
use preset::Preset;
use refusal::Refusal;
use statistic::peak::Peak;
use std::test::Fail;

#[test]
fn a_take_of_four(rt: HostRuntime) -> Result<(), Fail> {
    let mut slots = [Slot { start: 9, state: 7 }; 5];
    let mut meter = Stopped::<Peak>::make(&mut slots);
    meter.load(Preset::new(4, 500)?);
    let mut meter = meter.start();
    assert_eq!(rt; meter.read(), (0, 0));
    for (sample, low, high) in [
        (-8, 8, 8),
        (4, 8, 8),
        (5, 8, 8),
        (1, 8, 8),
        (1, 5, 8),
        (1, 5, 5),
        (2, 2, 2),
        (0, 2, 2),
    ] {
        meter.feed(sample)?;
        assert_eq!(rt; meter.read(), (low, high));
    }
    assert_eq!(rt; meter.feed(-32769), Err(Refusal::ItemNotAdmitted));
    assert_eq!(rt; meter.feed(-32768), Ok(9));
    assert_eq!(rt; meter.read(), (32768, 32768));
    Ok(())
}

#[test]
fn marks_at_below_and_above_the_bounds(rt: HostRuntime) -> Result<(), Fail> {
    let mut slots = [Slot { start: 0, state: 0 }; 5];
    let mut meter = Stopped::<Peak>::make(&mut slots);
    meter.load(Preset::new(4, 500)?);
    let mut meter = meter.start();
    for sample in [-8, 4, 5, 1, 1] {
        meter.feed(sample)?;
    }
    for (mark, verdict) in [
        (0, Verdict::Above),
        (5, Verdict::Above),
        (6, Verdict::Open),
        (8, Verdict::Open),
        (9, Verdict::Below),
        (u64::MAX, Verdict::Below),
    ] {
        assert_eq!(rt; meter.judge(mark), verdict);
    }
    Ok(())
}

#[test]
fn no_slots_refuse_each_admitted_item(rt: HostRuntime) {
    let mut slots: [Slot<u64>; 0] = [];
    let mut meter = Stopped::<Peak>::make(&mut slots).start();
    assert_eq!(rt; meter.feed(1), Err(Refusal::NoFreeSlot));
    assert_eq!(rt; meter.feed(32768), Err(Refusal::ItemNotAdmitted));
    assert_eq!(rt; meter.feed(-2), Err(Refusal::NoFreeSlot));
    assert_eq!(rt; meter.read(), (0, 0));
}

#[test]
fn a_burst_of_the_previous_take_does_not_count(rt: HostRuntime) -> Result<(), Fail> {
    let mut slots = [Slot { start: 0, state: 0 }; 5];
    let mut meter = Stopped::<Peak>::make(&mut slots);
    meter.load(Preset::new(1000, 500)?);
    let mut meter = meter.start();
    meter.feed(32767)?;
    assert_eq!(rt; meter.read(), (32767, 32767));
    let mut meter = meter.stop().start();
    assert_eq!(rt; meter.read(), (0, 0));
    assert_eq!(rt; meter.feed(3), Ok(1));
    assert_eq!(rt; meter.read(), (3, 3));
    Ok(())
}

#[test]
fn a_take_ends_at_its_last_position(rt: HostRuntime) -> Result<(), Fail> {
    let mut slots = [Slot { start: 0, state: 0 }; 5];
    let mut meter = Running::<Peak> {
        slots: &mut slots,
        kept: 0,
        now: (1 << 40) - 1,
        preset: Preset::new(1, 500)?,
    };
    assert_eq!(rt; meter.feed(1), Ok(1 << 40));
    assert_eq!(rt; meter.feed(1), Err(Refusal::TakeAtLastPosition));
    assert_eq!(rt; meter.feed(32768), Err(Refusal::ItemNotAdmitted));
    Ok(())
}
