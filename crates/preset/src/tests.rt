// The edges of both ranges, and the slots that each kind wants.
use crate::{Preset, slots_wanted};
use refusal::Refusal;
use statistic::Statistic;
use statistic::energy::Energy;
use statistic::notes::Notes;
use statistic::peak::Peak;
use std::test::Fail;

// What a preset holds at a window and a loss, or the number of the refusal.
fn held(window: u32, loss: u32) -> Result<(u32, u32), u8> {
    let preset = Preset::new(window, loss).map_err(Refusal::number)?;
    Ok((preset.window(), preset.loss()))
}

fn slots<T: Statistic>(window: u32, loss: u32) -> Result<usize, Refusal> {
    Ok(slots_wanted::<T>(&Preset::new(window, loss)?))
}

#[test]
fn the_edges_of_both_ranges(rt: HostRuntime) {
    assert_eq!(rt; held(0, 1), Err(1));
    assert_eq!(rt; held(1, 1), Ok((1, 1)));
    assert_eq!(rt; held(1_048_576, 999), Ok((1_048_576, 999)));
    assert_eq!(rt; held(1_048_577, 999), Err(1));
    assert_eq!(rt; held(1, 0), Err(2));
    assert_eq!(rt; held(1, 1000), Err(2));
    assert_eq!(rt; held(0, 0), Err(1), "the window is asked first");
}

#[test]
fn one_field_is_changed_by_the_same_questions(rt: HostRuntime) -> Result<(), Fail> {
    let first = Preset::new(1, 500)?;
    assert_eq!(rt; first.with_window(8)?.window(), 8);
    assert_eq!(rt; first.with_loss(20)?.window(), 1);
    assert!(rt; first.with_window(0).is_err());
    assert!(rt; first.with_loss(1000).is_err());
    Ok(())
}

#[test]
fn each_kind_wants_its_slots(rt: HostRuntime) -> Result<(), Fail> {
    assert_eq!(rt; slots::<Notes>(100, 500)?, 17);
    assert_eq!(rt; slots::<Peak>(1000, 500)?, 33);
    assert_eq!(rt; slots::<Peak>(4, 500)?, 5);
    assert_eq!(rt; slots::<Energy>(1_048_576, 500)?, 103);
    Ok(())
}
