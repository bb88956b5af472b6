// The answers with the bytes behind them, and the edges of event lines.
use crate::{Answer, Event, ItemText, read_event, write_answer};
use meter::Verdict;
use refusal::Refusal;
use statistic::hit::Hit;
use std::process::Abort;

#[test]
fn answers_leave_the_bytes_behind(rt: HostRuntime) {
    let mut reading = *b"..................................";
    assert_eq!(rt;
        write_answer(Answer::Reading(0, u64::MAX), &mut reading),
        Ok(32)
    );
    assert_eq!(rt; reading, *b"low=0\nhigh=18446744073709551615\n..");
    let mut verdict = *b"............";
    assert_eq!(rt;
        write_answer(Answer::Judged(Verdict::Above), &mut verdict),
        Ok(11)
    );
    assert_eq!(rt; verdict, *b"mark=above\n.");
    let mut refused = *b"............";
    assert_eq!(rt;
        write_answer(Answer::Refused(Refusal::SheetTooLong), &mut refused),
        Ok(11)
    );
    assert_eq!(rt; refused, *b"refused=12\n.");
}

#[test]
fn a_short_buffer_is_left_alone(rt: HostRuntime) {
    let mut out = *b".........";
    assert_eq!(rt;
        write_answer(Answer::Judged(Verdict::Open), &mut out),
        Err(Refusal::BufferTooShort)
    );
    assert_eq!(rt; out, *b".........");
}

fn none_is_an_event<I: ItemText>(rt: &impl Abort, lines: &[&[u8]]) {
    for line in lines {
        assert!(rt; read_event::<I>(line).is_none());
    }
}

#[test]
fn letters_and_marks(rt: HostRuntime) {
    assert_eq!(rt; read_event::<i32>(b"r="), Some(Event::Read));
    assert_eq!(rt; read_event::<i32>(b"z="), Some(Event::Restart));
    assert_eq!(rt;
        read_event::<i32>(b"m=9999999999999999"),
        Some(Event::Mark(9_999_999_999_999_999))
    );
    none_is_an_event::<i32>(
        &rt,
        &[
            b"",
            b"r",
            b"r=1",
            b"z=0",
            b"m=",
            b"m=00",
            b"m=10000000000000000",
            b"R=",
            b"m:1",
        ],
    );
}

#[test]
fn samples(rt: HostRuntime) {
    assert_eq!(rt;
        read_event::<i32>(b"f=-9999999"),
        Some(Event::Feed(-9_999_999))
    );
    assert_eq!(rt; read_event::<i32>(b"f=0"), Some(Event::Feed(0)));
    none_is_an_event::<i32>(
        &rt,
        &[b"f=", b"f=-", b"f=-0", b"f=07", b"f=10000000", b"f=+1"],
    );
}

#[test]
fn hits(rt: HostRuntime) {
    let whole = Hit {
        note: 999,
        velocity: 0,
    };
    assert_eq!(rt; read_event::<Hit>(b"f=999,0"), Some(Event::Feed(whole)));
    none_is_an_event::<Hit>(
        &rt,
        &[
            b"f=1000,1",
            b"f=1,2,3",
            b"f=60,01",
            b"f=60,",
            b"f=,60",
            b"f=60",
        ],
    );
}
