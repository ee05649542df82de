//! What is heard in an exchange, rule by rule.
ghost use Rattle.std.specs.Prelude.{◌≡◌, ◌<◌, length};
ghost use Rattle.frames.specs.Blocks.{ValidBlock};
ghost use Rattle.frames.specs.Faults.{cause_seen};
ghost use Rattle.frames.specs.Sizes.{greatest_frame};
ghost use Rattle.frames.specs.Views.{block_seen};
ghost use Rattle.protocol.specs.Reader.{running, on_invalid, on_wait, on_block, on_reading, read_as, agreed_of};
ghost use Rattle.exchange.specs.Exchanges.{exchange_seen};
ghost use Rattle.exchange.specs.Lent.{Going, Hears, Kept, Rules};
ghost use Rattle.exchange.specs.Links.{link_seen};
ghost use Rattle.exchange.specs.Listening.{event_seen};
ghost use Rattle.exchange.specs.Moves.{hearing, is_running};
ghost use Rattle.exchange.specs.Views.{progress_seen};

use super::Exchange;
use crate::listening::listen;
use crate::progress::Progress;
use crate::report::Ending;
use crate::turn::{Limits, Turn};
use frames::{Block, Cause, GREATEST_FRAME, Refusal};

impl Exchange {
    /// Silence, or an invalid block: ask again, with R(NAK), or with R(ACK) once the answer's first block is in.
    fn on_invalid(&mut self, limits: Limits, cause: Cause, out: &mut [u8; GREATEST_FRAME]) -> Turn
        requires { progress_seen self.old.progress ≡ running }
        ensures does { Rules (on_invalid limits.repeats limits.waits (link_seen self.old.link) (exchange_seen self.old) (cause_seen cause)) self.new result out.old out.new }
        ensures going { Going result (exchange_seen self.new) }
    {
        if self.since >= limits.repeats {
            return self.over(Ending::Spent(Some(cause)));
        }
        self.totals.repeats += 1;
        self.since += 1;
        self.why = Some(cause);
        let nak = !self.has_answer();
        Turn::Wrote(self.acknowledge(nak, out))
    }

    /// A wait is answered with its multiplier, up to the limit; it is neither fresh nor a repeat.
    fn on_wait(&mut self, limits: Limits, multiplier: u8, out: &mut [u8; GREATEST_FRAME]) -> Turn
        requires runs { progress_seen self.old.progress ≡ running }
        requires low { 0 < multiplier }
        requires high { multiplier < 60 }
        ensures does { Rules (on_wait limits.repeats limits.waits (link_seen self.old.link) (exchange_seen self.old) multiplier) self.new result out.old out.new }
        ensures going { Going result (exchange_seen self.new) }
    {
        self.came = self.came || !self.has_more();
        if self.totals.waits >= u32::from(limits.waits) {
            return self.over(Ending::WaitsSpent);
        }
        self.totals.waits += 1;
        self.stretch = multiplier;
        let block = Block::waiting(multiplier, 0, self.link.card());
        Turn::Wrote(self.send(block, out))
    }

    /// A block by its kind.
    fn on_block(&mut self, limits: Limits, block: Block<'_>, out: &mut [u8; GREATEST_FRAME]) -> Turn
        requires runs { progress_seen self.old.progress ≡ running }
        requires valid { ValidBlock (block_seen block) }
        ensures does { Rules (on_block limits.repeats limits.waits (link_seen self.old.link) (exchange_seen self.old) (block_seen block.entry)) self.new result out.old out.new }
        ensures going { Going result (exchange_seen self.new) }
    {
        match block {
            Block::I {
                chaining,
                number,
                information,
                ..
            } => self.on_information(chaining, number, information, out),
            Block::R { nak: true, .. } => self.over(Ending::Broken),
            Block::R { number, .. } => self.on_ack(limits, number, out),
            Block::Deselect { .. } => self.over(Ending::Broken),
            Block::Wait { multiplier, .. } => self.on_wait(limits, multiplier, out),
        }
    }

    /// What was heard after the last frame, or silence, in an exchange whose command runs.
    fn on_heard(
        &mut self,
        limits: Limits,
        heard: Option<&[u8]>,
        out: &mut [u8; GREATEST_FRAME],
    ) -> Turn
        requires { progress_seen self.old.progress ≡ running }
        ensures does { Rules (on_reading limits.repeats limits.waits (link_seen self.old.link) (exchange_seen self.old) (read_as limits.fsd (agreed_of (link_seen self.old.link).cid) (event_seen heard.entry))) self.new result out.old out.new }
        ensures going { Going result (exchange_seen self.new) }

        // A caller that lent a part of a slice learns here that it is whole.
        ensures whole { length out.new ≡ greatest_frame }
    {
        match listen(heard, limits.fsd, self.link.agreed()) {
            Ok(block) => self.on_block(limits, block, out),
            Err(fault) => self.on_invalid(limits, fault.cause(), out),
        }
    }

    /// A command runs.
    fn is_running(&self) -> bool
        ensures { result ≡ is_running (exchange_seen self.now).progress }
    {
        matches!(self.progress, Progress::Running)
    }

    /// What was heard after the last frame, or silence. A frame of the exchange is written to the front of `out`.
    pub fn hear(&mut self, limits: Limits, heard: Option<&[u8]>, out: &mut [u8]) -> Turn
        ensures hears { Hears (hearing limits (link_seen self.old.link) (exchange_seen self.old) (event_seen heard.entry) (length out.old)) self.new result out.old out.new }
        ensures kept { Kept result self.old self.new }
    {
        if !self.is_running() {
            return Turn::Refused(Refusal::Stage);
        }
        let Some(out) = out.first_chunk_mut() else {
            return Turn::Refused(Refusal::Buffer);
        };
        self.on_heard(limits, heard, out)
    }
}
