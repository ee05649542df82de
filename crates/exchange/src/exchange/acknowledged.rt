//! What an R(ACK) does. A rule that no limit bears on has 0 for the limits in its contract.
ghost use Rattle.std.specs.Prelude.{◌≡◌};
ghost use Rattle.protocol.specs.Reader.{running, more, same, on_equal, on_other, on_ack};
ghost use Rattle.exchange.specs.Exchanges.{exchange_seen};
ghost use Rattle.exchange.specs.Lent.{Going, Rules};
ghost use Rattle.exchange.specs.Links.{link_seen};
ghost use Rattle.exchange.specs.Views.{progress_seen};

use super::Exchange;
use crate::report::Ending;
use crate::turn::{Limits, Turn};
use frames::GREATEST_FRAME;

impl Exchange {
    /// R(ACK) of equal number: the next part, fresh, if there is one.
    fn on_equal(&mut self, out: &mut [u8; GREATEST_FRAME]) -> Turn
        requires { progress_seen self.old.progress ≡ running }
        ensures does { Rules (on_equal 0 0 (link_seen self.old.link) (exchange_seen self.old) (more (exchange_seen self.old).rest)) self.new result out.old out.new }
        ensures going { Going result (exchange_seen self.new) }
    {
        if !self.has_more() {
            return self.over(Ending::Broken);
        }
        self.number = !self.number;
        self.from += self.link.room();
        self.totals.fresh += 1;
        self.since = 0;
        self.why = None;
        self.stretch = 0;
        self.other = false;
        Turn::Wrote(self.send_part(out))
    }

    /// R(ACK) of the other number: the part again, a repeat, unless the answer has begun.
    fn on_other(&mut self, limits: Limits, out: &mut [u8; GREATEST_FRAME]) -> Turn
        requires { progress_seen self.old.progress ≡ running }
        ensures does { Rules (on_other limits.repeats limits.waits (link_seen self.old.link) (exchange_seen self.old) (more (exchange_seen self.old).answer)) self.new result out.old out.new }
        ensures going { Going result (exchange_seen self.new) }
    {
        self.other = true;
        if self.has_answer() {
            return self.over(Ending::Broken);
        }
        if self.since >= limits.repeats {
            return self.over(Ending::Spent(self.why));
        }
        self.totals.repeats += 1;
        self.since += 1;
        self.stretch = 0;
        self.other = false;
        Turn::Wrote(self.send_part(out))
    }

    /// R(ACK), by its number.
    pub(super) fn on_ack(
        &mut self,
        limits: Limits,
        number: bool,
        out: &mut [u8; GREATEST_FRAME],
    ) -> Turn
        requires { progress_seen self.old.progress ≡ running }
        ensures does { Rules (on_ack limits.repeats limits.waits (link_seen self.old.link) (exchange_seen self.old) (same number (exchange_seen self.old).number)) self.new result out.old out.new }
        ensures going { Going result (exchange_seen self.new) }
    {
        if number == self.number {
            self.on_equal(out)
        } else {
            self.on_other(limits, out)
        }
    }
}
