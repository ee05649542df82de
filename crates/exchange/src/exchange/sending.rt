//! The reader's blocks, as they go out, and how an exchange ends.
ghost use Rattle.std.specs.Prelude.{◌≡◌, ℕ, true, List, length};
ghost use Rattle.frames.specs.Blocks.{r_block};
ghost use Rattle.frames.specs.Sizes.{greatest_frame};
ghost use Rattle.frames.specs.Views.{block_seen};
ghost use Rattle.frames.specs.Writing.{in_range, sendable};
ghost use Rattle.protocol.specs.Reader.{running, writes, ends, part_block};
ghost use Rattle.exchange.specs.Exchanges.{exchange_seen};
ghost use Rattle.exchange.specs.Lent.{Going, Rules, Sends};
ghost use Rattle.exchange.specs.Links.{link_seen};
ghost use Rattle.exchange.specs.Views.{ending_seen, progress_seen};

use super::Exchange;
use crate::report::Ending;
use crate::turn::{Sent, Turn};
use frames::{Block, GREATEST_FRAME, write_block};

impl Exchange {
    /// Writes the frame of a block that can be sent, so that writing it does not fail.
    pub(super) fn send(&self, block: Block<'_>, out: &mut [u8; GREATEST_FRAME]) -> Sent
        requires runs { progress_seen self.now.progress ≡ running }
        requires range { in_range (block_seen block) ≡ true }
        requires goes { sendable (block_seen block) ≡ true }
        ensures { Sends (writes (link_seen self.now.link) (exchange_seen self.now) (block_seen block.entry)) self.now result out.old out.new }
    {
        Sent {
            len: write_block(block, out).unwrap(),
            cycles: self.link.listening(self.stretch),
        }
    }

    /// The part of the command in the last block.
    fn part(&self) -> &[u8]
        requires { progress_seen self.now.progress ≡ running }
        ensures { result.now ≡ (exchange_seen self.now).part }
    {
        let command = self.command.gathered();
        let end = command.len().min(self.from + self.link.room());
        &command[self.from..end]
    }

    /// Writes the frame of the last block.
    pub(super) fn send_part(&self, out: &mut [u8; GREATEST_FRAME]) -> Sent
        requires { progress_seen self.now.progress ≡ running }
        ensures sends { Sends (writes (link_seen self.now.link) (exchange_seen self.now) (part_block (link_seen self.now.link) (exchange_seen self.now))) self.now result out.old out.new }

        // A caller that lent a part of a slice learns here that it is whole.
        ensures whole { length out.new ≡ greatest_frame }
    {
        let part = self.part();
        let block = Block::carrying(self.has_more(), self.number, self.link.card(), part);
        self.send(block, out)
    }

    /// Writes the frame of an R-block.
    pub(super) fn acknowledge(&self, nak: bool, out: &mut [u8; GREATEST_FRAME]) -> Sent
        requires { progress_seen self.now.progress ≡ running }
        ensures { Sends (writes (link_seen self.now.link) (exchange_seen self.now) (r_block nak (exchange_seen self.now).number (link_seen self.now.link).cid)) self.now result out.old out.new }
    {
        let block = Block::acknowledging(nak, self.number, self.link.card());
        self.send(block, out)
    }

    /// The exchange ends against the reader's will.
    pub(super) fn over(&self, ending: Ending) -> Turn
        requires { progress_seen self.now.progress ≡ running }
        ensures does { (buffer : List ℕ) → Rules (ends (link_seen self.now.link) (exchange_seen self.now) (ending_seen ending)) self.now result buffer buffer }
        ensures going { Going result (exchange_seen self.now) }
    {
        Turn::Over {
            ending,
            report: self.report(),
        }
    }
}
