//! Shutting a session: deselect, from each stage that takes it.
ghost use Rattle.std.specs.Prelude.{◌≡◌, true, refl};
ghost use Rattle.protocol.specs.Reader.{close as closes, at, closing, tried, no_cause, may_close};
ghost use Rattle.stages.specs.Calls.{Does};
ghost use Rattle.stages.specs.Results.{closed_by};
ghost use Rattle.stages.specs.Setups.{setup_seen};
ghost use Rattle.stages.specs.Stages.{closing_seen};

use super::{Closing, Ended, Failed, Idle, Stage, Woken};
use crate::requests::write_deselect;
use exchange::{Link, Sent};
use frames::Refusal;

/// A stage at which close is refused for the buffer alone. (`Close` asks no such law of who implements it.)
pub trait Shut: Stage {
    /// a card may be awake, and no exchange is open
    ghost shuts: { (s : Self) → may_close (Self.reader s) ≡ true };
}

/// What becomes of a stage once deselect is out. No caller sees this trait, and no trait that one sees rests on it, so that
/// none can leave deselect out.
trait Deselected: Shut + Sized {
    fn shut(self) -> Closing
        ensures settings { setup_seen result.setup ≡ Self.settings self }
        ensures reader { closing_seen result ≡ at closing (Self.reader self).link (tried 0 no_cause (Self.reader self).exchange) };
}

/// Writes deselect, with the card number where the card has one.
fn deselect<S: Deselected>(stage: S, out: &mut [u8]) -> Result<(Closing, Sent), (S, Refusal)>
    ensures { Does (S.Stage.settings stage) (S.Stage.reader stage) closes (closed_by S.Stage.settings S.Stage.reader result out.new) out.old out.new }
{
    match write_deselect(stage.view().link.and_then(Link::card), out) {
        Ok(sent) => Ok((stage.shut(), sent)),
        Err(why) => Err((stage, why)),
    }
}

/// A stage that takes close.
pub trait Close: Stage + Sized {
    /// Writes deselect, with the card number where the card has one.
    fn close(self, out: &mut [u8]) -> Result<(Closing, Sent), (Self, Refusal)>
        ensures { Does (Self.settings self) (Self.reader self) closes (closed_by Self.settings Self.reader result out.new) out.old out.new };
}

impl Close for Woken {
    fn close(self, out: &mut [u8]) -> Result<(Closing, Sent), (Woken, Refusal)> {
        deselect(self, out)
    }
}

impl Close for Failed {
    fn close(self, out: &mut [u8]) -> Result<(Closing, Sent), (Failed, Refusal)> {
        deselect(self, out)
    }
}

impl Close for Idle {
    fn close(self, out: &mut [u8]) -> Result<(Closing, Sent), (Idle, Refusal)> {
        deselect(self, out)
    }
}

impl Close for Ended {
    fn close(self, out: &mut [u8]) -> Result<(Closing, Sent), (Ended, Refusal)> {
        deselect(self, out)
    }
}

impl Shut for Woken {
    ghost shuts = { λ _. refl };
}

impl Deselected for Woken {
    fn shut(self) -> Closing {
        Closing {
            setup: self.setup,
            latest: Some(self.exchange),
            tries: 0,
        }
    }
}

impl Shut for Failed {
    ghost shuts = { λ _. refl };
}

impl Deselected for Failed {
    fn shut(self) -> Closing {
        Closing {
            setup: self.asking.setup,
            latest: None,
            tries: 0,
        }
    }
}

impl Shut for Idle {
    ghost shuts = { λ _. refl };
}

impl Deselected for Idle {
    fn shut(self) -> Closing {
        Closing {
            setup: self.setup,
            latest: Some(self.exchange),
            tries: 0,
        }
    }
}

impl Shut for Ended {
    ghost shuts = { λ _. refl };
}

impl Deselected for Ended {
    fn shut(self) -> Closing {
        Closing {
            setup: self.setup,
            latest: Some(self.exchange),
            tries: 0,
        }
    }
}
