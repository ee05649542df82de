//! An exchange in which a command runs, handed over to each call.
ghost use Rattle.std.specs.Prelude.{◌≡◌, length};
ghost use Rattle.protocol.specs.Reader.{running};
ghost use Rattle.exchange.specs.Listening.{event_seen};
ghost use Rattle.exchange.specs.Views.{progress_seen};

use super::Exchange;
use crate::turn::{Limits, Next, Turn};
use frames::Refusal;

/// An exchange whose command runs: a block was written, and the card's is awaited.
#[derive(Drop)]
pub struct Running {
    pub(super) exchange: Exchange,
    ghost runs: { progress_seen exchange.progress ≡ running },
}

impl From<Running> for Exchange {
    ghost from_gives = { λ r x. x ≡ r.exchange };

    /// The exchange, left where it stands.
    fn from(running: Running) -> Exchange {
        running.exchange
    }
}

impl Running {
    ghost use Rattle.exchange.specs.Moves.{Does, hearing};
    ghost use Rattle.exchange.specs.Runs.{run_link, run_seen};

    /// The exchange so far.
    pub fn exchange(&self) -> &Exchange
        ensures { result.now ≡ self.now.exchange }
    {
        &self.exchange
    }

    /// What was heard after the last frame, or silence. A frame of the exchange is written to the front of `out`.
    pub fn hear(
        self,
        limits: Limits,
        heard: Option<&[u8]>,
        out: &mut [u8],
    ) -> Result<Next, (Running, Refusal)>
        ensures { Does (hearing limits (run_link self) (run_seen self) (event_seen heard.entry) (length out.old)) result out.old out.new }
    {
        let Running { mut exchange } = self;
        match exchange.hear(limits, heard, out) {
            Turn::Refused(why) => Err((Running { exchange }, why)),
            Turn::Wrote(sent) => Ok(Next::Wrote {
                running: Running { exchange },
                sent,
            }),
            Turn::Answered { len, report } => Ok(Next::Answered {
                exchange,
                len,
                report,
            }),
            Turn::Over { ending, report } => Ok(Next::Over {
                exchange,
                ending,
                report,
            }),
        }
    }
}
