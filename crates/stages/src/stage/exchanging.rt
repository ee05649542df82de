//! The stage with an open exchange, from its begin to its end.
ghost use Rattle.protocol.specs.Reader.{begin as begins, give_up as gives_up};
ghost use Rattle.stages.specs.Calls.{Does, Turns};
ghost use Rattle.stages.specs.Results.{began, at_block, gave_up};
ghost use Rattle.stages.specs.Setups.{setup_seen};
ghost use Rattle.stages.specs.Stages.{idle_seen, busy_seen};

use super::{Busy, Ended, Idle, Listen};
use crate::next::{AfterBlock, Heard};
use crate::outcome::Outcome;
use exchange::{Next, Report, Sent};
use frames::Refusal;

impl Idle {
    /// Takes a command, and writes its first block.
    pub fn begin(self, command: &[u8], out: &mut [u8]) -> Result<(Busy, Sent), (Idle, Refusal)>
        ensures { Does (setup_seen self.setup) (idle_seen self) (begins command.now) (began result out.new) out.old out.new }
    {
        let setup = self.setup;
        match self.exchange.run(command, out) {
            Ok((running, sent)) => Ok((Busy { setup, running }, sent)),
            Err((exchange, why)) => Err((Idle { setup, exchange }, why)),
        }
    }
}

impl Listen for Busy {
    type Next = AfterBlock;

    ghost next = { at_block };

    fn listen<'a>(self, bytes: Option<&'a [u8]>, out: &mut [u8]) -> Heard<'a, AfterBlock, Busy> {
        let setup = self.setup;
        let next = match self.running.hear(setup.limits(), bytes, out) {
            Ok(next) => next,
            Err((running, why)) => return Err((Busy { setup, running }, why)),
        };
        Ok(match next {
            Next::Wrote { running, sent } => (
                AfterBlock::Busy(Busy { setup, running }),
                Outcome::Wrote(sent),
            ),
            Next::Answered {
                exchange,
                len,
                report,
            } => (
                AfterBlock::Idle(Idle { setup, exchange }),
                Outcome::Answered { len, report },
            ),
            Next::Over {
                exchange,
                ending,
                report,
            } => (
                AfterBlock::Ended(Ended { setup, exchange }),
                Outcome::Over { ending, report },
            ),
        })
    }
}

impl Busy {
    /// The host gives the exchange up.
    pub fn give_up(self) -> (Ended, Report)
        ensures { Turns (setup_seen self.setup) (busy_seen self) gives_up (gave_up result) }
    {
        let report = self.running.exchange().report();
        let stage = Ended {
            setup: self.setup,
            exchange: self.running.into(),
        };
        (stage, report)
    }
}
