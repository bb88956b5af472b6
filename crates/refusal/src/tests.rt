// What a person reads of a refusal.
use crate::Refusal;
use std::alloc::AllocError;

#[test]
fn a_refusal_is_told_with_its_number(rt: HostRuntime) -> Result<(), AllocError> {
    let told = Refusal::NoFreeSlot.to_string(rt.alloc())?;
    assert_eq!(rt; told.as_str(), "refused, number 5");
    let told = Refusal::SheetTooLong.to_string(rt.alloc())?;
    assert_eq!(rt; told.as_str(), "refused, number 12");
    Ok(())
}
