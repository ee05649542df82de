//! An exchange that its holder lends for each call.
use super::playing::PLAIN;
use activation::ats_of;
use exchange::{Exchange, Limits, Link, Says, Turn};
use frames::{GREATEST_FRAME, Refusal, seal};
use std::test::Fail;

const LIMITS: Limits = Limits {
    fsd: 16,
    repeats: 3,
    waits: 3,
};

fn exchange() -> Option<Exchange> {
    let ats = ats_of(&PLAIN, 16).ok()?;
    Some(Exchange::new(Link::of(ats, 0)?))
}

#[test]
fn lent_for_each_call(rt: HostRuntime) -> Result<(), Fail> {
    let mut out = [0; GREATEST_FRAME];
    let Some(mut x) = exchange() else {
        return Err(Fail::new("an ATS without reserved values gives no link"));
    };
    assert_eq!(rt;
        x.hear(LIMITS, None, &mut out),
        Turn::Refused(Refusal::Stage)
    );
    assert_eq!(rt; x.begin(&[], &mut out), Err(Refusal::Length));
    assert!(rt; x.begin(&[0x80, 0x12], &mut out).is_ok());
    assert!(rt; out[..3] == [0x02, 0x80, 0x12]);
    assert_eq!(rt;
        x.hear(LIMITS, None, &mut []),
        Turn::Refused(Refusal::Buffer)
    );
    assert!(rt; matches!(x.hear(LIMITS, None, &mut out), Turn::Wrote(_)));
    assert!(rt; out[0] == 0xB2);
    let mut frame = [0; GREATEST_FRAME];
    let Ok(n) = seal(&[0x02, 0x90, 0x00], &mut frame) else {
        return Err(Fail::new("three bytes are not sealed"));
    };
    let heard = frame.get(..n).unwrap_or(&[]);
    assert!(rt;
        matches!(
            x.hear(LIMITS, Some(heard), &mut out),
            Turn::Answered { len: 2, .. }
        )
    );
    assert!(rt; x.answer() == [0x90, 0x00].as_slice());
    assert!(rt; x.says() == Says::Done);
    assert_eq!(rt; x.totals().repeats, 1);
    Ok(())
}
