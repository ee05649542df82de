//! What is printed of a block and of a cause.
ghost use Rattle.std.specs.Prelude.{◌≡◌, Some};
ghost use Rattle.frames.specs.Faults.{cause_seen};
ghost use Rattle.frames.specs.Views.{cid_seen, block_seen};
ghost use Rattle.inspection.specs.Texts.{bit_text, chaining_text, nak_text, card_text, block_text, cause_text};

use frames::{Block, CardNumber, Cause, information_place};
use std::fmt;
use text::Hex;

fn bit_text(bit: bool) -> &'static str
    ensures { result.now ≡ bit_text bit }
{
    if bit { "1" } else { "0" }
}

fn chaining_text(chaining: bool) -> &'static str
    ensures { result.now ≡ chaining_text chaining }
{
    if chaining { "chaining" } else { "last" }
}

fn nak_text(nak: bool) -> &'static str
    ensures { result.now ≡ nak_text nak }
{
    if nak { "NAK" } else { "ACK" }
}

/// A card number and its power level.
#[derive(Clone, Copy)]
struct CardText(Option<CardNumber>);

impl fmt::Display for CardText {
    ghost output = { λ c. Some (card_text (cid_seen c.0)) };

    fn fmt<W: fmt::Write>(&self, f: &mut fmt::Formatter<W>) -> fmt::Result {
        match self.0 {
            Some(card) => write!(f, "{} {}", card.number, card.power),
            None => write!(f, "- -"),
        }
    }
}

/// What a block is.
#[derive(Clone, Copy)]
pub struct BlockText<'a>(pub Block<'a>);

impl<'a> fmt::Display for BlockText<'a> {
    ghost output = { λ b. Some (block_text (block_seen b.0)) };

    fn fmt<W: fmt::Write>(&self, f: &mut fmt::Formatter<W>) -> fmt::Result {
        match self.0 {
            Block::I {
                chaining,
                number,
                card,
                information,
                ..
            } => write!(
                f,
                "I {} {} {} {} {}",
                bit_text(number),
                chaining_text(chaining),
                CardText(card),
                information_place(card),
                Hex(information)
            ),
            Block::R { nak, number, card } => write!(
                f,
                "R {} {} {}",
                bit_text(number),
                nak_text(nak),
                CardText(card)
            ),
            Block::Deselect { card } => write!(f, "DESELECT {}", CardText(card)),
            Block::Wait {
                multiplier,
                power,
                card,
            } => write!(f, "WTX {multiplier} {power} {}", CardText(card)),
        }
    }
}

/// A cause: number, place and layer.
#[derive(Clone, Copy)]
pub struct CauseText(pub Cause);

impl fmt::Display for CauseText {
    ghost output = { λ c. Some (cause_text (cause_seen c.0)) };

    fn fmt<W: fmt::Write>(&self, f: &mut fmt::Formatter<W>) -> fmt::Result {
        let Cause {
            number,
            place,
            layer,
        } = self.0;
        write!(f, "{number} {place} {layer}")
    }
}
