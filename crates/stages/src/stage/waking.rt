//! Waking a card: from the first stage to the start of an active session.
ghost use Rattle.std.specs.Prelude.{◌≡◌, ℕ, ◌≤◌, List, length};
ghost use Rattle.activation.specs.Ats.{good, bad};
ghost use Rattle.activation.specs.Laws.{ValidAts};
ghost use Rattle.activation.specs.Views.{said_by};
ghost use Rattle.exchange.specs.Listening.{event_seen};
ghost use Rattle.frames.specs.Faults.{cause_seen};
ghost use Rattle.frames.specs.Sizes.{greatest_frame};
ghost use Rattle.protocol.specs.Reader.{ask as asks, start as starts, on_ats};
ghost use Rattle.stages.specs.Calls.{Does, Turns, Hears, Makes};
ghost use Rattle.stages.specs.Results.{asked, started, made, outcome_by, at_rats};
ghost use Rattle.stages.specs.Setups.{wished, setup_seen, setup_for, all_least};
ghost use Rattle.stages.specs.Stages.{unwoken_seen, asking_seen, woken_seen};

use super::{Asking, Failed, Idle, Listen, Unwoken, Woken};
use crate::next::{AfterRats, Heard};
use crate::outcome::Outcome;
use crate::requests::{hear_answer, write_request};
use crate::settings::Settings;
use crate::setup::Setup;
use activation::Ats;
use exchange::{Ending, Exchange, Link, Report, Says, Sent, Totals};
use frames::{Cause, GREATEST_FRAME, Refusal};

/// What is told of a session without an exchange.
const NO_REPORT: Report = Report {
    says: Says::Nothing,
    totals: Totals {
        fresh: 0,
        repeats: 0,
        waits: 0,
    },
};

impl Unwoken {
    /// A session with these settings, before anything is asked.
    pub fn new(settings: Settings) -> Result<Unwoken, Refusal>
        ensures { made result ≡ setup_for (wished settings) }
    {
        let setup = Setup::try_from(settings)?;
        Ok(Unwoken { setup })
    }

    /// A session with the least settings, in the place of one that was taken out.
    pub fn blank() -> Unwoken
        ensures { setup_seen result.setup ≡ all_least }
    {
        Unwoken {
            setup: Setup::least(),
        }
    }

    /// Writes RATS.
    pub fn ask(self, out: &mut [u8]) -> Result<(Asking, Sent), (Unwoken, Refusal)>
        ensures { Does (setup_seen self.setup) (unwoken_seen self) asks (asked result out.new) out.old out.new }
    {
        match write_request(self.setup, out) {
            Ok(sent) => {
                let stage = Asking {
                    setup: self.setup,
                    tries: 0,
                    why: None,
                };
                Ok((stage, sent))
            }
            Err(why) => Err((self, why)),
        }
    }
}

impl Listen for Asking {
    type Next = AfterRats;

    ghost next = { at_rats };

    fn listen<'a>(self, bytes: Option<&'a [u8]>, out: &mut [u8]) -> Heard<'a, AfterRats, Asking> {
        if out.len() < GREATEST_FRAME {
            return Err((self, Refusal::Buffer));
        }
        Ok(match hear_answer(bytes, self.setup) {
            Ok(ats) => self.wake(ats),
            Err(fault) => self.again(fault.cause(), out),
        })
    }
}

impl Asking {
    /// The card is awake; an ATS that was read has no reserved value, so that it gives a link.
    fn wake<'a>(self, ats: Ats<'a>) -> (AfterRats, Outcome<Ats<'a>>)
        requires { ValidAts (said_by ats) }
        ensures { (buffer : List ℕ) → Makes (setup_seen self.setup) (on_ats (setup_seen self.setup) (asking_seen self).link (asking_seen self).exchange (good (said_by ats.entry))) (at_rats result.0 (outcome_by result.1 buffer)) buffer buffer }
    {
        let stage = Woken {
            setup: self.setup,
            exchange: Exchange::new(Link::of(ats, self.setup.cid()).unwrap()),
        };
        (AfterRats::Woken(stage), Outcome::Wakes(ats))
    }

    /// RATS again, while there are repeats left.
    fn again<'a>(self, why: Cause, out: &mut [u8]) -> (AfterRats, Outcome<Ats<'a>>)
        requires { greatest_frame ≤ length out.old }
        ensures { Makes (setup_seen self.setup) (on_ats (setup_seen self.setup) (asking_seen self).link (asking_seen self).exchange (bad (cause_seen why))) (at_rats result.0 (outcome_by result.1 out.new)) out.old out.new }
    {
        if self.tries >= self.setup.repeats() {
            let outcome = Outcome::Over {
                ending: Ending::Spent(Some(why)),
                report: NO_REPORT,
            };
            return (AfterRats::Failed(Failed { asking: self }), outcome);
        }
        let sent = write_request(self.setup, out).unwrap();
        let stage = Asking {
            setup: self.setup,
            tries: self.tries + 1,
            why: Some(why),
        };
        (AfterRats::Asking(stage), Outcome::Wrote(sent))
    }
}

impl Woken {
    /// The session is active.
    pub fn start(self) -> Idle
        ensures { Turns (setup_seen self.setup) (woken_seen self) starts (started result) }
    {
        Idle {
            setup: self.setup,
            exchange: self.exchange,
        }
    }
}
