//! What an I-block does. No limit bears on it: its rule has 0 for the limits in its contract.
ghost use Rattle.std.specs.Prelude.{◌≡◌, ◌<◌, not, length};
ghost use Rattle.frames.specs.Check.{both};
ghost use Rattle.protocol.specs.Reader.{running, more, same, on_information};
ghost use Rattle.exchange.specs.Exchanges.{exchange_seen};
ghost use Rattle.exchange.specs.Lent.{Going, Rules};
ghost use Rattle.exchange.specs.Links.{link_seen};
ghost use Rattle.exchange.specs.Views.{progress_seen};

use super::Exchange;
use crate::progress::Progress;
use crate::report::Ending;
use crate::turn::Turn;
use frames::GREATEST_FRAME;

impl Exchange {
    /// An I-block: the answer's next part, if its number is equal and the command all sent, unless the answer gets too
    /// long. A chaining one is answered with R(ACK), fresh; the last one ends the exchange.
    pub(super) fn on_information(
        &mut self,
        chaining: bool,
        number: bool,
        information: &[u8],
        out: &mut [u8; GREATEST_FRAME],
    ) -> Turn
        requires runs { progress_seen self.old.progress ≡ running }
        requires some { 0 < length information.now }
        ensures does { Rules (on_information 0 0 (link_seen self.old.link) (exchange_seen self.old) (both (same number (exchange_seen self.old).number) (not (more (exchange_seen self.old).rest))) chaining information.now) self.new result out.old out.new }
        ensures going { Going result (exchange_seen self.new) }
    {
        if number != self.number || self.has_more() {
            return self.over(Ending::Broken);
        }
        self.came = true;
        if self.answer.append(information).is_err() {
            return self.over(Ending::AnswerLong);
        }
        self.number = !self.number;
        self.stretch = 0;
        if !chaining {
            self.progress = Progress::Finished;
            return Turn::Answered {
                len: self.answer.gathered().len(),
                report: self.report(),
            };
        }
        self.totals.fresh += 1;
        self.since = 0;
        self.why = None;
        Turn::Wrote(self.acknowledge(false, out))
    }
}
