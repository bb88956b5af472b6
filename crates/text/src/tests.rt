// Numbers at the edges of their form, the first of several lines, and a text that passes 64 bytes.
use crate::{Short, next_line, read_number};
use std::test::Fail;

#[test]
fn numbers_at_the_edges(rt: HostRuntime) {
    assert_eq!(rt; read_number(7, b"0"), Some(0));
    assert_eq!(rt; read_number(7, b"1048576"), Some(1_048_576));
    assert_eq!(rt; read_number(7, b"10485760"), None, "eight digits");
    assert_eq!(rt; read_number(7, b""), None);
    assert_eq!(rt; read_number(7, b"07"), None);
    assert_eq!(rt; read_number(7, b"7 "), None);
    assert_eq!(rt; read_number(7, b"+7"), None);
    assert_eq!(rt; read_number(7, b"7\xff"), None, "no text");
    assert_eq!(rt;
        read_number(20, b"9999999999999999"),
        Some(9_999_999_999_999_999)
    );
    assert_eq!(rt;
        read_number(20, b"10000000000000000"),
        None,
        "seventeen digits"
    );
}

#[test]
fn the_first_line_and_the_text_behind(rt: HostRuntime) -> Result<(), Fail> {
    let (line, rest) = next_line(b"a=1\n\nb").ok_or("no line")?;
    assert_eq!(rt; line, b"a=1".as_slice());
    assert_eq!(rt; rest, b"\nb".as_slice());
    assert!(rt; next_line(b"a=1").is_none());
    Ok(())
}

#[test]
fn a_short_text_stops_at_its_end(rt: HostRuntime) -> Result<(), Fail> {
    let mut text = Short::new();
    text.push(b"n=");
    text.push_number(18_446_744_073_709_551_615);
    assert_eq!(rt; text.as_bytes(), b"n=18446744073709551615".as_slice());
    let mut out = [1u8; 23];
    assert_eq!(rt; text.write_to(&mut out)?, 22);
    assert_eq!(rt; out[22], 1);
    text.push(&[9; 60]);
    assert_eq!(rt; text.as_bytes().len(), 64);
    text.push(b"more");
    assert_eq!(rt; text.as_bytes().len(), 64);
    assert!(rt; text.write_to(&mut out).is_err());
    assert_eq!(rt; out[0], b'n', "as it was");
    Ok(())
}
