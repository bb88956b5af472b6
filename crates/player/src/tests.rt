// Whole sheets: each refusal that a sheet can come to, the ends of a sheet, and a take that begins anew.
use crate::{MOST_BYTES, play};
use std::process::Abort;
use std::test::Fail;

fn prints(rt: &(impl Abort + AllocGlobal), sheet: &[u8], wanted: &[u8]) -> Result<(), Fail> {
    let mut printed = Vec::new(rt.alloc());
    play(sheet, &mut printed)?;
    assert_eq!(rt; printed.as_slice(), wanted);
    Ok(())
}

#[test]
fn a_sheet_goes_on_behind_a_refused_item(rt: HostRuntime) -> Result<(), Fail> {
    prints(
        &rt,
        b"kind=peak\nwindow=4\nloss=500\nf=-8\nf=4\nf=5\nf=1\nf=1\nr=\nm=6\nf=40000\nf=1\nr=\n",
        b"low=5\nhigh=8\nmark=open\nrefused=3\nlow=5\nhigh=5\n",
    )
}

#[test]
fn the_preset_is_asked_first(rt: HostRuntime) -> Result<(), Fail> {
    prints(&rt, b"", b"refused=7\n")?;
    prints(&rt, b"kind=loud\nwindow=4\nloss=500\nr=\n", b"refused=8\n")?;
    prints(&rt, b"kind=peak\nwindow=04\nloss=500\nr=\n", b"refused=9\n")?;
    prints(&rt, b"kind=peak\nwindow=0\nloss=0\nr=\n", b"refused=1\n")?;
    prints(&rt, b"kind=peak\nwindow=4\nloss=1000\nr=\n", b"refused=2\n")
}

#[test]
fn what_is_no_event_ends_the_sheet(rt: HostRuntime) -> Result<(), Fail> {
    prints(
        &rt,
        b"kind=energy\nwindow=4\nloss=500\nf=2\nr=\nf=-0\nr=\n",
        b"low=4\nhigh=4\nrefused=10\n",
    )?;
    prints(
        &rt,
        b"kind=energy\nwindow=4\nloss=500\nm=0\nr=",
        b"mark=above\nrefused=10\n",
    )?;
    prints(
        &rt,
        b"kind=energy\nwindow=4\nloss=500\nr=\r\n",
        b"refused=10\n",
    )
}

#[test]
fn a_restart_forgets_the_take(rt: HostRuntime) -> Result<(), Fail> {
    prints(
        &rt,
        b"kind=notes\nwindow=9\nloss=500\nf=60,1\nf=61,127\nf=60,0\nr=\nz=\nr=\nf=128,1\nf=62,1\nr=\n",
        b"low=2\nhigh=2\nlow=0\nhigh=0\nrefused=3\nlow=1\nhigh=1\n",
    )
}

#[test]
fn bytes_that_are_no_text(rt: HostRuntime) -> Result<(), Fail> {
    prints(&rt, b"\xff\n\n\n", b"refused=7\n")?;
    prints(
        &rt,
        b"kind=peak\nwindow=4\nloss=500\n\xff\n",
        b"refused=10\n",
    )
}

// A header of 28 bytes and 21,836 events are 65,536 bytes. Each reading is 13 bytes.
#[test]
fn the_longest_sheet_and_one_byte_more(rt: HostRuntime) -> Result<(), Fail> {
    let mut sheet = Vec::new(rt.alloc());
    sheet.extend_from_slice(b"kind=peak\nwindow=4\nloss=500\n")?;
    for _ in 0..21_836 {
        sheet.extend_from_slice(b"r=\n")?;
    }
    assert_eq!(rt; sheet.len(), MOST_BYTES);
    let mut printed = Vec::new(rt.alloc());
    play(&sheet, &mut printed)?;
    assert_eq!(rt; printed.len(), 283_868);
    sheet.push(b'\n')?;
    prints(&rt, &sheet, b"refused=12\n")
}
