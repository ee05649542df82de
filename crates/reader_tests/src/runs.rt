//! What a session tells at its ends, its refusals in their order, and what it fetches.
use super::playing::*;
use exchange::Ending;
use frames::{GREATEST_FRAME, Layer};
use reader::{Answer, Outcome, Session, Settings};
use std::test::Fail;

fn started(settings: Settings, ats: &[u8], out: &mut [u8]) -> Result<Session, Fail> {
    match active(settings, ats, out) {
        Ok(session) => Ok(session),
        Err(_) => Err(Fail::new("settings in range are refused")),
    }
}

/// The repeats are spent, by silence.
fn spent_by_silence(answer: Answer<'_>) -> bool {
    let Ok(
        Outcome::Over {
            ending: Ending::Spent(Some(cause)),
            ..
        },
    ) = answer
    else {
        return false;
    };
    matches!(cause.layer, Layer::Frame) && cause.number == 20 && cause.place == 0
}

#[test]
fn silence_without_repeats(rt: HostRuntime) -> Result<(), Fail> {
    let mut out = [0; GREATEST_FRAME];
    let mut s = started(limited(0, 0), &PLAIN, &mut out)?;
    assert!(rt; begins(&mut s, &[0x80], &mut out, &[0x02, 0x80]));
    assert!(rt; spent_by_silence(s.silent(&mut out)));
    assert!(rt; says(&s) == 4);
    assert!(rt; told(s.begin(&[0x80], &mut out)).number == 4);
    Ok(())
}

/// One repeat, the first frame lost: R(ACK) of the other number to the R(NAK).
#[test]
fn one_repeat(rt: HostRuntime) -> Result<(), Fail> {
    let mut out = [0; GREATEST_FRAME];
    let mut s = started(limited(1, 0), &PLAIN, &mut out)?;
    assert!(rt; begins(&mut s, &[0x80], &mut out, &[0x02, 0x80]));
    assert!(rt; answers(&mut s, &[], &mut out, &[0xB2]));
    let over = after(&mut s, &[0xA3], &mut out);
    assert!(rt; over.number == 6 && over.totals.fresh == 1 && over.totals.repeats == 1);
    assert!(rt; says(&s) == 3);
    Ok(())
}

/// 13 bytes are one block and 14 are two, at frame size 16 without card number; with it 12 and 13.
#[test]
fn room(rt: HostRuntime) -> Result<(), Fail> {
    let mut out = [0; GREATEST_FRAME];
    let mut s = started(limited(0, 0), &PLAIN, &mut out)?;
    let sent = told(s.begin(&[7; 13], &mut out));
    assert!(rt; sent.len == 16 && out[0] == 0x02);
    let mut s = started(limited(0, 0), &PLAIN, &mut out)?;
    let sent = told(s.begin(&[7; 14], &mut out));
    assert!(rt; sent.len == 16 && out[0] == 0x12);
    let mut s = started(limited(0, 0), &NUMBERED, &mut out)?;
    let sent = told(s.begin(&[7; 13], &mut out));
    assert!(rt; sent.len == 16 && out[0] == 0x1A && out[1] == 0x00);
    Ok(())
}

#[test]
fn endings(rt: HostRuntime) -> Result<(), Fail> {
    let mut out = [0; GREATEST_FRAME];
    let mut s = started(limited(1, 0), &PLAIN, &mut out)?;
    assert!(rt; begins(&mut s, &[0x80], &mut out, &[0x02, 0x80]));
    assert!(rt; ends(&mut s, &[0xF2, 0x01], &mut out, 8));
    assert!(rt; says(&s) == 2);
    let mut s = started(limited(1, 0), &PLAIN, &mut out)?;
    assert!(rt; begins(&mut s, &[0x80], &mut out, &[0x02, 0x80]));
    assert!(rt; ends(&mut s, &[0xB2], &mut out, 7));
    assert!(rt; says(&s) == 4);
    let mut s = started(limited(1, 0), &PLAIN, &mut out)?;
    assert!(rt; begins(&mut s, &[0x80], &mut out, &[0x02, 0x80]));
    let stopped = told(s.give_up());
    assert!(rt; stopped.number == 103 && stopped.totals.fresh == 1);
    assert!(rt; told(s.give_up()).number == 4);
    Ok(())
}

/// RATS is repeated, then only close is left, without card number.
#[test]
fn waking_fails(rt: HostRuntime) -> Result<(), Fail> {
    let mut out = [0; GREATEST_FRAME];
    let Ok(mut s) = Session::new(limited(1, 0)) else {
        return Err(Fail::new("settings in range are refused"));
    };
    let asked = told(s.ask(&mut out));
    assert!(rt; wrote(asked, &out, &[0xE0, 0x00]) && asked.cycles == 65_536);
    assert!(rt;
        answers(
            &mut s,
            &[0x05, 0x78, 0x00, 0xF0, 0x02],
            &mut out,
            &[0xE0, 0x00],
        )
    );
    assert!(rt; spent_by_silence(s.silent(&mut out)));
    assert!(rt; says(&s) == 0 && s.dsi() == 0 && s.dri() == 0);
    assert!(rt; told(s.start()).number == 4 && told(s.ask(&mut out)).number == 4);
    let closing = told(s.close(&mut out));
    assert!(rt; wrote(closing, &out, &[0xC2]) && closing.cycles == 65_536);
    assert!(rt; answers(&mut s, &[], &mut out, &[0xC2]));
    assert!(rt; ends(&mut s, &[], &mut out, 102));
    assert!(rt; told(s.close(&mut out)).number == 4);
    Ok(())
}

/// 1, then 4, then 5, then 3; nothing moves.
#[test]
fn refusals(rt: HostRuntime) -> Result<(), Fail> {
    let mut out = [0; GREATEST_FRAME];
    let mut small = [0; GREATEST_FRAME - 1];
    let beyond = Settings {
        fsdi: 9,
        cid: 0,
        repeats: 0,
        waits: 0,
    };
    match Session::new(beyond) {
        Ok(_) => return Err(Fail::new("size code 9 is taken")),
        Err(why) => assert!(rt; why.number() == 1),
    }
    let mut s = started(limited(1, 0), &PLAIN, &mut out)?;
    assert!(rt; told(s.ask(&mut small)).number == 4);
    assert!(rt; told(s.silent(&mut small)).number == 4);
    assert!(rt; told(s.begin(&[], &mut small)).number == 5);
    assert!(rt; told(s.begin(&[], &mut out)).number == 3);
    assert!(rt; told(s.begin(&[0; 262], &mut out)).number == 3);
    assert!(rt; begins(&mut s, &[0x80], &mut out, &[0x02, 0x80]));
    assert!(rt; told(s.begin(&[], &mut small)).number == 4);
    assert!(rt; told(s.silent(&mut small)).number == 5);
    assert!(rt; told(s.close(&mut small)).number == 4);
    assert!(rt; ends(&mut s, &[0x02, 0x90, 0x00], &mut out, 100));
    assert!(rt; told(s.close(&mut small)).number == 5);
    Ok(())
}

/// Before, in and after an exchange.
#[test]
fn fetches(rt: HostRuntime) -> Result<(), Fail> {
    let mut out = [0; GREATEST_FRAME];
    let mut answer = [0xEE; 258];
    let mut s = started(limited(1, 0), &PLAIN, &mut out)?;
    let none = told(s.fetch(&mut answer));
    assert!(rt; none.number == 0 && none.len == 0 && answer[0] == 0xEE);
    assert!(rt; told(s.fetch(&mut out)).number == 5);
    assert!(rt; begins(&mut s, &[0x80], &mut out, &[0x02, 0x80]));
    assert!(rt; answers(&mut s, &[0x12, 0xAA], &mut out, &[0xA3]));
    let some = told(s.fetch(&mut answer));
    assert!(rt; some.len == 1 && answer[0] == 0xAA && answer[1] == 0xEE);
    assert!(rt; ends(&mut s, &[0x03, 0x90, 0x00], &mut out, 100));
    let all = told(s.fetch(&mut answer));
    assert!(rt; all.len == 3 && answer[1] == 0x90 && answer[2] == 0x00 && answer[3] == 0xEE);
    told(s.close(&mut out));
    assert!(rt; told(s.fetch(&mut answer)).len == 3);
    assert!(rt; ends(&mut s, &[0xC2], &mut out, 101));
    assert!(rt; told(s.fetch(&mut answer)).number == 4);
    Ok(())
}

/// 4096 × 2^FWI, times the multiplier until a valid block is heard, and never above the longest.
#[test]
fn listening(rt: HostRuntime) -> Result<(), Fail> {
    let mut out = [0; GREATEST_FRAME];
    let mut s = started(limited(2, 2), &PLAIN, &mut out)?;
    assert!(rt; told(s.begin(&[0x80], &mut out)).cycles == 65_536);
    assert!(rt; after(&mut s, &[0xF2, 0x3B], &mut out).cycles == 3_866_624);
    assert!(rt; after(&mut s, &[], &mut out).cycles == 3_866_624);
    assert!(rt; after(&mut s, &[0x12, 0x90], &mut out).cycles == 65_536);
    let mut s = started(limited(2, 2), &[0x05, 0x70, 0x00, 0xE0, 0x02], &mut out)?;
    assert!(rt; told(s.begin(&[0x80], &mut out)).cycles == 67_108_864);
    assert!(rt; after(&mut s, &[0xFA, 0x00, 0x02], &mut out).cycles == 67_108_864);
    Ok(())
}
