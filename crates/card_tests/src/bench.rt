//! How scenes are played.
use applications::{Application, Metre, Yarn};
use card::{Card, CardSettings};
use frames::{GREATEST_FRAME, seal};
use std::process::Abort;
use std::test::Fail;

/// What lies in the buffer before an answer is put there.
const UNTOUCHED: u8 = 0xee;

/// How a frame is heard: whole, and the application is given a command or not; or with a spoilt byte.
#[derive(Clone, Copy)]
pub enum Way {
    Gives,
    Tells,
    Spoilt,
}

/// A frame to the card, and what it answers: both without check, no bytes for silence.
pub struct Turn(pub Way, pub &'static [u8], pub &'static [u8]);

/// FSC 32, FWI 4, SFGI 0, the divisors of `ta`, two historical bytes.
pub fn settings(supports: bool, ta: u8) -> CardSettings {
    CardSettings {
        fsci: 2,
        fwi: 4,
        sfgi: 0,
        ta,
        supports,
        historical: [0x48, 0x50, 0, 0, 0, 0, 0, 0, 0],
        historical_len: 2,
    }
}

/// The card hears these bytes, and what it answers is compared, the buffer behind the answer too.
fn hears<A: Application>(
    rt: &impl Abort,
    card: &mut Card<A>,
    frame: &[u8],
    answer: &[u8],
    given: bool,
) -> Result<(), Fail> {
    let mut out = [UNTOUCHED; GREATEST_FRAME];
    let Ok(response) = card.hear(frame, &mut out) else {
        return Err(Fail::new("refused"));
    };
    assert_eq!(rt; response.given, given, "heard {frame:?}");
    assert_eq!(rt;
        response.len.is_some(),
        !answer.is_empty(),
        "heard {frame:?}"
    );
    let len = response.len.unwrap_or(0);
    assert!(rt; len <= GREATEST_FRAME, "heard {frame:?}");
    let (front, rest) = out.split_at(len);
    assert_eq!(rt; front, answer, "heard {frame:?}");
    for byte in rest {
        assert_eq!(rt; *byte, UNTOUCHED, "heard {frame:?}");
    }
    Ok(())
}

/// Puts the frame of a body at the front of `out`, and answers its length; nothing for no bytes.
fn sealed(body: &[u8], out: &mut [u8; GREATEST_FRAME]) -> usize {
    seal(body, out).unwrap_or(0)
}

/// One frame to the card.
pub fn play_turn<A: Application>(
    rt: &impl Abort,
    card: &mut Card<A>,
    way: Way,
    body: &[u8],
    answer: &[u8],
) -> Result<(), Fail> {
    let mut frame = [0; GREATEST_FRAME];
    let n = sealed(body, &mut frame);
    assert!(rt; n <= GREATEST_FRAME);
    if let Way::Spoilt = way {
        frame[0] ^= 0x01;
    }
    let (frame, _) = frame.split_at(n);
    let mut reply = [0; GREATEST_FRAME];
    let n = sealed(answer, &mut reply);
    assert!(rt; n <= GREATEST_FRAME);
    let (reply, _) = reply.split_at(n);
    let given = match way {
        Way::Gives => true,
        _ => false,
    };
    hears(rt, card, frame, reply, given)
}

/// Frames one after the other.
fn play<A: Application>(rt: &impl Abort, card: &mut Card<A>, turns: &[Turn]) -> Result<(), Fail> {
    for turn in turns {
        play_turn(rt, card, turn.0, turn.1, turn.2)?;
    }
    Ok(())
}

/// A scene with a counter of 100 metres; behind it this many are left, and these are the codes of the divisors from the card
/// and to it.
pub fn metre_scene(
    rt: &impl Abort,
    settings: CardSettings,
    turns: &[Turn],
    left: u32,
    dsi: u8,
    dri: u8,
) -> Result<(), Fail> {
    let Ok(mut card) = Card::new(settings, Metre::new(100)) else {
        return Err(Fail::new("refused"));
    };
    play(rt, &mut card, turns)?;
    assert_eq!(rt; card.sends_at(), dsi);
    assert_eq!(rt; card.listens_at(), dri);
    assert_eq!(rt; card.application().count(), left);
    assert_eq!(rt; card.into_application().count(), left);
    Ok(())
}

/// A scene with a record full of 5A.
pub fn yarn_scene(rt: &impl Abort, settings: CardSettings, turns: &[Turn]) -> Result<(), Fail> {
    let Ok(mut card) = Card::new(settings, Yarn::filled(0x5a)) else {
        return Err(Fail::new("refused"));
    };
    play(rt, &mut card, turns)
}
