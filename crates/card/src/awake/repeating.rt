//! The last block of an awake card, written from what the card keeps of it.
ghost use Rattle.std.specs.Prelude.{◌≡◌, length};

use super::AwakeCard;
use crate::last::LastBlock;
use crate::writing::write_fit;
use frames::{Block, GREATEST_FRAME};

impl AwakeCard {
    ghost use Rattle.card.specs.Fit.{FitSent};
    ghost use Rattle.card.specs.Held.{awake_of};
    ghost use Rattle.card.specs.Told.{again, reply_length, replied};

    /// Writes the frame of the last block, if there is one, and answers its length.
    pub fn write_last(&self, out: &mut [u8; GREATEST_FRAME]) -> Option<usize>
        requires { FitSent (awake_of self.now).last }
        ensures value { result ≡ reply_length (again (awake_of self.now).last) }
        ensures bytes { out.new ≡ replied (again (awake_of self.now).last) out.old }
    {
        match self.last? {
            LastBlock::Acknowledged { number, card } => {
                write_fit(Block::acknowledging(false, number, card), out)
            }
            LastBlock::Waiting { multiplier, card } => {
                write_fit(Block::waiting(multiplier, 0, card), out)
            }
            LastBlock::Part {
                chaining,
                number,
                card,
                from,
                room,
            } => {
                let information = self.part(from, room);
                write_fit(Block::carrying(chaining, number, card, information), out)
            }
        }
    }
}
