//! The standard's scenarios, without and with errors, from an active session on.
use super::playing::*;
use frames::GREATEST_FRAME;
use reader::Session;
use std::test::Fail;

/// A session with a few repeats, and a card without card numbers.
fn started(out: &mut [u8]) -> Result<Session, Fail> {
    match active(limited(3, 3), &PLAIN, out) {
        Ok(session) => Ok(session),
        Err(_) => Err(Fail::new("settings in range are refused")),
    }
}

const COMMAND: [u8; 2] = [0x80, 0x12];

/// 14 bytes, one more than a block of 16 bytes without card number carries.
const LONG: [u8; 14] = [1, 2, 3, 4, 5, 6, 7, 8, 9, 10, 11, 12, 13, 14];

const FIRST_PART: [u8; 14] = [0x12, 1, 2, 3, 4, 5, 6, 7, 8, 9, 10, 11, 12, 13];

#[test]
fn blocks(rt: HostRuntime) -> Result<(), Fail> {
    let mut out = [0; GREATEST_FRAME];
    let mut s = started(&mut out)?;
    assert!(rt; says(&s) == 0);
    assert!(rt; begins(&mut s, &COMMAND, &mut out, &[0x02, 0x80, 0x12]));
    assert!(rt; says(&s) == 4);
    assert!(rt; ends(&mut s, &[0x02, 0x90, 0x00], &mut out, 100));
    assert!(rt; says(&s) == 1);
    assert!(rt; begins(&mut s, &COMMAND, &mut out, &[0x03, 0x80, 0x12]));
    assert!(rt; ends(&mut s, &[0x03, 0x90, 0x00], &mut out, 100));
    Ok(())
}

#[test]
fn waiting_time_extension(rt: HostRuntime) -> Result<(), Fail> {
    let mut out = [0; GREATEST_FRAME];
    let mut s = started(&mut out)?;
    assert!(rt; begins(&mut s, &COMMAND, &mut out, &[0x02, 0x80, 0x12]));
    assert!(rt; answers(&mut s, &[0xF2, 0x02], &mut out, &[0xF2, 0x02]));
    assert!(rt; says(&s) == 2);
    assert!(rt; ends(&mut s, &[0x02, 0x90, 0x00], &mut out, 100));
    Ok(())
}

#[test]
fn deselect(rt: HostRuntime) -> Result<(), Fail> {
    let mut out = [0; GREATEST_FRAME];
    let mut s = started(&mut out)?;
    assert!(rt; begins(&mut s, &COMMAND, &mut out, &[0x02, 0x80, 0x12]));
    assert!(rt; ends(&mut s, &[0x02, 0x90, 0x00], &mut out, 100));
    let closing = told(s.close(&mut out));
    assert!(rt; wrote(closing, &out, &[0xC2]));
    assert!(rt; ends(&mut s, &[0xC2], &mut out, 101));
    assert!(rt; says(&s) == 1);
    Ok(())
}

#[test]
fn reader_chains(rt: HostRuntime) -> Result<(), Fail> {
    let mut out = [0; GREATEST_FRAME];
    let mut s = started(&mut out)?;
    assert!(rt; begins(&mut s, &LONG, &mut out, &FIRST_PART));
    assert!(rt; says(&s) == 3);
    assert!(rt; answers(&mut s, &[0xA2], &mut out, &[0x03, 14]));
    assert!(rt; says(&s) == 4);
    assert!(rt; ends(&mut s, &[0x03, 0x90, 0x00], &mut out, 100));
    assert!(rt; begins(&mut s, &COMMAND, &mut out, &[0x02, 0x80, 0x12]));
    Ok(())
}

#[test]
fn card_chains(rt: HostRuntime) -> Result<(), Fail> {
    let mut out = [0; GREATEST_FRAME];
    let mut s = started(&mut out)?;
    assert!(rt; begins(&mut s, &COMMAND, &mut out, &[0x02, 0x80, 0x12]));
    assert!(rt; answers(&mut s, &[0x12, 0xAA], &mut out, &[0xA3]));
    assert!(rt; ends(&mut s, &[0x03, 0x90, 0x00], &mut out, 100));
    assert!(rt; begins(&mut s, &COMMAND, &mut out, &[0x02, 0x80, 0x12]));
    Ok(())
}

/// The first block is lost: the card's R(ACK) has the other number, and the block is sent again.
#[test]
fn command_lost(rt: HostRuntime) -> Result<(), Fail> {
    let mut out = [0; GREATEST_FRAME];
    let mut s = started(&mut out)?;
    assert!(rt; begins(&mut s, &COMMAND, &mut out, &[0x02, 0x80, 0x12]));
    assert!(rt; answers(&mut s, &[], &mut out, &[0xB2]));
    assert!(rt; answers(&mut s, &[0xA3], &mut out, &[0x02, 0x80, 0x12]));
    assert!(rt; ends(&mut s, &[0x02, 0x90, 0x00], &mut out, 100));
    assert!(rt; begins(&mut s, &COMMAND, &mut out, &[0x03, 0x80, 0x12]));
    assert!(rt; answers(&mut s, &[], &mut out, &[0xB3]));
    assert!(rt; answers(&mut s, &[0xA2], &mut out, &[0x03, 0x80, 0x12]));
    assert!(rt; ends(&mut s, &[0x03, 0x90, 0x00], &mut out, 100));
    Ok(())
}

/// The answer is lost, then the R(NAK) too.
#[test]
fn answer_lost(rt: HostRuntime) -> Result<(), Fail> {
    let mut out = [0; GREATEST_FRAME];
    let mut s = started(&mut out)?;
    assert!(rt; begins(&mut s, &COMMAND, &mut out, &[0x02, 0x80, 0x12]));
    let noise = told(s.heard(&[0x02, 0x90, 0x00, 0x00, 0x00], &mut out));
    assert!(rt; wrote(noise, &out, &[0xB2]));
    assert!(rt; answers(&mut s, &[], &mut out, &[0xB2]));
    assert!(rt; says(&s) == 4);
    let done = after(&mut s, &[0x02, 0x90, 0x00], &mut out);
    assert!(rt; done.number == 100 && done.len == 2);
    assert!(rt; done.totals.fresh == 1 && done.totals.repeats == 2 && done.totals.waits == 0);
    Ok(())
}

/// The card's request for time is lost, then the reader's answer to it.
#[test]
fn extension_lost(rt: HostRuntime) -> Result<(), Fail> {
    let mut out = [0; GREATEST_FRAME];
    let mut s = started(&mut out)?;
    assert!(rt; begins(&mut s, &COMMAND, &mut out, &[0x02, 0x80, 0x12]));
    assert!(rt; answers(&mut s, &[], &mut out, &[0xB2]));
    assert!(rt; answers(&mut s, &[0xF2, 0x01], &mut out, &[0xF2, 0x01]));
    assert!(rt; answers(&mut s, &[], &mut out, &[0xB2]));
    assert!(rt; answers(&mut s, &[0xF2, 0x01], &mut out, &[0xF2, 0x01]));
    let done = after(&mut s, &[0x02, 0x90, 0x00], &mut out);
    assert!(rt; done.number == 100);
    assert!(rt; done.totals.fresh == 1 && done.totals.repeats == 2 && done.totals.waits == 2);
    Ok(())
}

#[test]
fn deselect_lost(rt: HostRuntime) -> Result<(), Fail> {
    let mut out = [0; GREATEST_FRAME];
    let mut s = started(&mut out)?;
    let closing = told(s.close(&mut out));
    assert!(rt; wrote(closing, &out, &[0xC2]));
    assert!(rt; answers(&mut s, &[], &mut out, &[0xC2]));
    assert!(rt; answers(&mut s, &[0xA2], &mut out, &[0xC2]));
    assert!(rt; ends(&mut s, &[0xC2], &mut out, 101));
    Ok(())
}

/// A block of a chain is lost, and then the card's R(ACK).
#[test]
fn reader_chain_lost(rt: HostRuntime) -> Result<(), Fail> {
    let mut out = [0; GREATEST_FRAME];
    let mut s = started(&mut out)?;
    assert!(rt; begins(&mut s, &LONG, &mut out, &FIRST_PART));
    assert!(rt; answers(&mut s, &[], &mut out, &[0xB2]));
    assert!(rt; answers(&mut s, &[0xA3], &mut out, &FIRST_PART));
    assert!(rt; answers(&mut s, &[], &mut out, &[0xB2]));
    assert!(rt; answers(&mut s, &[0xA2], &mut out, &[0x03, 14]));
    assert!(rt; ends(&mut s, &[0x03, 0x90, 0x00], &mut out, 100));
    Ok(())
}

/// A block of the card's chain is lost: R(ACK) again, since the answer has begun.
#[test]
fn card_chain_lost(rt: HostRuntime) -> Result<(), Fail> {
    let mut out = [0; GREATEST_FRAME];
    let mut s = started(&mut out)?;
    assert!(rt; begins(&mut s, &COMMAND, &mut out, &[0x02, 0x80, 0x12]));
    assert!(rt; answers(&mut s, &[0x12, 0xAA], &mut out, &[0xA3]));
    assert!(rt; answers(&mut s, &[], &mut out, &[0xA3]));
    let done = after(&mut s, &[0x03, 0x90, 0x00], &mut out);
    assert!(rt; done.number == 100 && done.len == 3);
    Ok(())
}
