// Each refusal, the edges of both numbers, the order of the questions, and a buffer that is too short.
use crate::{Kind, Setup, read, read_header, write};
use preset::Preset;
use refusal::Refusal;
use std::test::Fail;

// What a text reads as, or the number of the refusal.
fn told(text: &[u8]) -> Result<(Kind, u32, u32), u8> {
    let setup = read(text).map_err(Refusal::number)?;
    Ok((setup.kind, setup.preset.window(), setup.preset.loss()))
}

#[test]
fn the_edges_of_both_numbers(rt: HostRuntime) {
    assert_eq!(rt;
        told(b"kind=energy\nwindow=1\nloss=1\n"),
        Ok((Kind::Energy, 1, 1))
    );
    assert_eq!(rt;
        told(b"kind=peak\nwindow=1048576\nloss=999\n"),
        Ok((Kind::Peak, 1_048_576, 999))
    );
    assert_eq!(rt; told(b"kind=notes\nwindow=0\nloss=0\n"), Err(1));
    assert_eq!(rt; told(b"kind=notes\nwindow=1048577\nloss=1\n"), Err(1));
    assert_eq!(rt; told(b"kind=notes\nwindow=8\nloss=0\n"), Err(2));
    assert_eq!(rt; told(b"kind=notes\nwindow=8\nloss=1000\n"), Err(2));
}

#[test]
fn numbers_that_are_not_well_formed(rt: HostRuntime) {
    assert_eq!(rt; told(b"kind=notes\nwindow=08\nloss=20\n"), Err(9));
    assert_eq!(rt;
        told(b"kind=notes\nwindow=10485760\nloss=20\n"),
        Err(9),
        "eight digits"
    );
    assert_eq!(rt; told(b"kind=notes\nwindow=8\nloss=\n"), Err(9));
    assert_eq!(rt;
        told(b"kind=notes\nwindow=8\nloss=20\r\n"),
        Err(9),
        "a carriage return"
    );
}

#[test]
fn lines_that_are_not_three(rt: HostRuntime) {
    assert_eq!(rt; told(b""), Err(7));
    assert_eq!(rt;
        told(b"kind=notes\nwindow=8\nloss=20"),
        Err(7),
        "the last line is not ended"
    );
    assert_eq!(rt;
        told(b"kind=notes\nwindow=8\nloss=20\n\n"),
        Err(7),
        "four lines"
    );
    assert_eq!(rt;
        told(b"window=8\nkind=notes\nloss=20\n"),
        Err(7),
        "another order"
    );
}

#[test]
fn the_first_no_decides(rt: HostRuntime) {
    assert_eq!(rt; told(b"kind=gain\nwindow=x\nloss=0\n"), Err(8));
    assert_eq!(rt; told(b"kind=gain\nwindow=x\nloss=0\nmore"), Err(7));
    assert_eq!(rt; told(b"kind=peak\nwindow=0\nloss=x\n"), Err(9));
    assert_eq!(rt; told(b"kind=peak\nwindow=0\nloss=0\n"), Err(1));
}

#[test]
fn a_header_ends_where_the_text_behind_begins(rt: HostRuntime) -> Result<(), Fail> {
    let text = b"kind=peak\nwindow=4\nloss=500\n7\n".as_slice();
    let (setup, rest) = read_header(text)?;
    assert_eq!(rt; setup.kind, Kind::Peak);
    assert_eq!(rt; setup.preset.window(), 4);
    assert_eq!(rt; text.len() - rest.len(), 28);
    Ok(())
}

#[test]
fn thirty_six_bytes_and_one_too_few(rt: HostRuntime) -> Result<(), Fail> {
    let setup = Setup {
        kind: Kind::Energy,
        preset: Preset::new(1_048_576, 999)?,
    };
    let mut out = [7u8; 37];
    assert_eq!(rt; write(&setup, &mut out)?, 36);
    assert_eq!(rt; &out, b"kind=energy\nwindow=1048576\nloss=999\n\x07");
    let mut short = [7u8; 35];
    assert!(rt; write(&setup, &mut short).is_err());
    assert_eq!(rt; short, [7u8; 35]);
    Ok(())
}
