//! How an awake card answers: waits, and the answer in parts.
ghost use Rattle.std.specs.Prelude.{◌≡◌, ◌≤◌, take, drop};
ghost use Rattle.buffers.specs.Stores.{held};
ghost use Rattle.frames.specs.Sizes.{greatest_frame};
ghost use Rattle.frames.specs.Views.{cid_seen};
ghost use Rattle.protocol.specs.Card.{card_room, sends_answer, asks_or_answers, on_wait, on_next, on_r};
ghost use Rattle.protocol.specs.Reader.{same};

use super::{AwakeCard, reply_number};
use crate::last::{LastBlock, Owed};
use crate::taken::Sends;
use activation::size_of_code;
use frames::CardNumber;

impl AwakeCard {
    ghost use Rattle.card.specs.Held.{awake_of};
    ghost use Rattle.card.specs.Told.{Steps};

    /// How much information a block to the reader has room for.
    fn room(&self, card: Option<CardNumber>) -> usize
        ensures value { result ≡ card_room (awake_of self.now) (cid_seen card) }
        ensures bound { result ≤ greatest_frame }
    {
        let size = size_of_code(self.fsdi).unwrap_or(0);
        size.saturating_sub(3 + usize::from(card.is_some()))
    }

    /// The part of the answer that begins at `from`, of `room` bytes or of what there is.
    pub(super) fn part(&self, from: usize, room: usize) -> &[u8]
        ensures { result.now ≡ take room (drop from (held self.now.answer)) }
    {
        let rest = self.answer.gathered().get(from..).unwrap_or(&[]);
        &rest[..room.min(rest.len())]
    }

    /// Sends the part of the answer that begins at `from`.
    fn send_part(&mut self, card: Option<CardNumber>, from: usize) -> Option<Sends>
        ensures { Steps self.new result (sends_answer (awake_of self.old) tt self.old.number (cid_seen card) (drop from (held self.old.answer))) }
    {
        self.gathered.clear();
        let room = self.room(card);
        let next = from.saturating_add(room);
        let chaining = next < self.answer.gathered().len();
        let part = LastBlock::Part {
            chaining,
            number: self.number,
            card,
            from,
            room,
        };
        self.send(chaining.then_some(Owed::Rest { from: next }), part)
    }

    /// Asks for a wait if there are any left, and else sends the answer's first part.
    pub(super) fn ask_or_answer(
        &mut self,
        card: Option<CardNumber>,
        left: u8,
        multiplier: u8,
    ) -> Option<Sends>
        ensures { Steps self.new result (asks_or_answers (awake_of self.old) tt self.old.number (cid_seen card) left multiplier (held self.old.answer)) }
    {
        if left == 0 {
            return self.send_part(card, 0);
        }
        self.gathered.clear();
        let owes = Owed::Waits { left, multiplier };
        self.send(Some(owes), LastBlock::Waiting { multiplier, card })
    }

    /// A wait with the multiplier asked for ends one wait.
    pub(super) fn take_wait(&mut self, multiplier: u8, card: Option<CardNumber>) -> Option<Sends>
        ensures { Steps self.new result (on_wait (awake_of self.old) tt (awake_of self.old).owes multiplier (cid_seen card)) }
    {
        match self.owes {
            Some(
                Owed::Waits {
                    left,
                    multiplier: asked,
                },
            ) if multiplier == asked => {
                self.ask_or_answer(reply_number(card), left.saturating_sub(1), asked)
            }
            _ => self.stay_quiet(),
        }
    }

    /// The answer's next part, if it is begun and unfinished.
    fn send_next(&mut self, card: Option<CardNumber>) -> Option<Sends>
        ensures { Steps self.new result (on_next (awake_of self.old) tt (awake_of self.old).owes (cid_seen card)) }
    {
        match self.owes {
            Some(Owed::Rest { from }) => {
                self.number = !self.number;
                self.send_part(reply_number(card), from)
            }
            _ => self.stay_quiet(),
        }
    }

    /// R of equal number, R(NAK) and R(ACK) of the other.
    pub(super) fn take_r(
        &mut self,
        nak: bool,
        number: bool,
        card: Option<CardNumber>,
    ) -> Option<Sends>
        ensures { Steps self.new result (on_r (awake_of self.old) tt nak (same number self.old.number) (cid_seen card)) }
    {
        if number == self.number {
            self.send_again()
        } else if nak {
            self.acknowledge(reply_number(card))
        } else {
            self.send_next(card)
        }
    }
}
