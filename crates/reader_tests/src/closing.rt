//! What a caller knows, by its bounds alone, of a stage that takes close.
ghost use Rattle.std.specs.Prelude.{◌≡◌, false};

use super::playing::*;
use frames::{GREATEST_FRAME, Refusal};
use reader::{Close, Session, Shut};
use std::test::Fail;

/// With the law of `Shut`, close is refused for the buffer alone: not in one that holds a frame.
fn refused<S: Close + Shut + Drop>(stage: S, out: &mut [u8; GREATEST_FRAME]) -> bool
    ensures { result ≡ false }
{
    stage.close(out).is_err()
}

#[test]
fn refused_for_the_buffer_alone(rt: HostRuntime) -> Result<(), Fail> {
    let mut out = [0; GREATEST_FRAME];
    let Ok(Session::Idle(stage)) = active(limited(0, 0), &PLAIN, &mut out) else {
        return Err(Fail::new("an ATS without reserved values wakes no card"));
    };
    let Err((stage, why)) = stage.close(&mut []) else {
        return Err(Fail::new("a deselect stands in no bytes"));
    };
    assert_eq!(rt; why, Refusal::Buffer);
    assert!(rt; !refused(stage, &mut out));
    Ok(())
}
