//! An awake card, and how it turns from one frame to the next.
ghost use Rattle.std.specs.Prelude.{◌≡◌, Some, false};
ghost use Rattle.buffers.specs.Stores.{held};
ghost use Rattle.frames.specs.Blocks.{r_block};
ghost use Rattle.frames.specs.Views.{cid_seen};
ghost use Rattle.protocol.specs.Card.{awake, quiet, remains, shut, turned, changed, woken, sends, sends_again, answer_cid};

use crate::last::{LastBlock, Owed};
use crate::taken::Sends;
use activation::{Pps, Rats};
use buffers::{AnswerStore, CommandStore};
use frames::CardNumber;

mod answering;
mod repeating;
mod taking;

/// The code of the reader's frame size and the card's number, as RATS gave them; whether a PPS would be answered; the codes of
/// the divisors in use, from the card and to it; its block number; the command's bytes so far; what it owes, if anything; the
/// answer of its application; and its last block, if it has sent one.
#[derive(Drop)]
pub struct AwakeCard {
    fsdi: u8,
    pub(crate) cid: u8,
    window: bool,
    pub(crate) dsi: u8,
    pub(crate) dri: u8,
    number: bool,
    gathered: CommandStore,
    owes: Option<Owed>,
    answer: AnswerStore,
    last: Option<LastBlock>,
}

/// A reply has the card's number where the block had it, with power level 00.
fn reply_number(card: Option<CardNumber>) -> Option<CardNumber>
    ensures { cid_seen result ≡ answer_cid (cid_seen card) }
{
    card.map(|card| CardNumber { power: 0, ..card })
}

impl AwakeCard {
    ghost use Rattle.card.specs.Held.{awake_of, owed_of, last_of};
    ghost use Rattle.card.specs.Told.{Steps, again};

    /// A card that this RATS has woken.
    pub fn woken(rats: Rats) -> AwakeCard
        ensures { awake_of result ≡ woken rats.fsdi rats.cid }
    {
        AwakeCard {
            fsdi: rats.fsdi,
            cid: rats.cid,
            window: true,
            dsi: 0,
            dri: 0,
            number: true,
            gathered: CommandStore::new(),
            owes: None,
            answer: AnswerStore::new(),
            last: None,
        }
    }

    /// The rates of a PPS hold from now on.
    fn change(&mut self, pps: Pps)
        ensures { awake_of self.new ≡ changed (awake_of self.old) pps.dsi pps.dri }
    {
        self.window = false;
        self.dsi = pps.dsi;
        self.dri = pps.dri;
    }

    /// Nothing is sent; the window for PPS is closed.
    fn stay_quiet(&mut self) -> Option<Sends>
        ensures { Steps self.new result (remains (awake (shut (awake_of self.old))) tt quiet) }
    {
        self.window = false;
        None
    }

    /// The last block is sent once more, if there is one.
    fn send_again(&mut self) -> Option<Sends>
        ensures { Steps self.new result (sends_again (awake_of self.old) tt (awake_of self.old).last) }
    {
        self.window = false;
        Some(Sends::LastBlock)
    }

    /// Sends a block and keeps it as the last one; behind it this is owed.
    fn send(&mut self, owes: Option<Owed>, last: LastBlock) -> Option<Sends>
        ensures { Steps self.new result (remains (awake (turned (awake_of self.old) self.old.number (awake_of self.old).gathered (owed_of owes (held self.old.answer)) (last_of (Some last) (held self.old.answer)))) tt (again (last_of (Some last) (held self.old.answer)))) }
    {
        self.window = false;
        self.owes = owes;
        self.last = Some(last);
        Some(Sends::LastBlock)
    }

    /// R(ACK) with the card's block number.
    fn acknowledge(&mut self, card: Option<CardNumber>) -> Option<Sends>
        ensures { Steps self.new result (sends (awake_of self.old) tt self.old.number (awake_of self.old).gathered (awake_of self.old).owes (r_block false self.old.number (cid_seen card))) }
    {
        let owes = self.owes;
        let number = self.number;
        self.send(owes, LastBlock::Acknowledged { number, card })
    }
}
