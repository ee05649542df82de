//! Blocks, as they are sent and as they are read.
ghost use Rattle.std.specs.Prelude.{◌≡◌};
ghost use Rattle.frames.specs.declared.block.Block.TheVariants.{I, R, Deselect, Wait};
ghost use Rattle.frames.specs.Views.{cid_seen, information_place};

/// A card number (CID) with the power level that it was sent with.
#[derive(Clone, Copy, Debug, PartialEq, Eq)]
pub struct CardNumber {
    pub number: u8,
    pub power: u8,
}

/// A block. Block numbers are bits: false is 0, true is 1.
#[derive(Clone, Copy, Debug, PartialEq, Eq)]
pub enum Block<'a> {
    /// information, a part of the frame that begins at `place` (the control byte being 1)
    I {
        chaining: bool,
        number: bool,
        card: Option<CardNumber>,
        place: usize,
        information: &'a [u8],
    },
    /// R(ACK), or R(NAK)
    R {
        nak: bool,
        number: bool,
        card: Option<CardNumber>,
    },
    Deselect {
        card: Option<CardNumber>,
    },
    /// more time is asked for, or granted
    Wait {
        multiplier: u8,
        power: u8,
        card: Option<CardNumber>,
    },
}

/// Which card numbers a receiver takes.
#[derive(Clone, Copy, Debug, PartialEq, Eq)]
pub enum Agreed {
    NoNumber,
    Number(u8),
    /// the number 0 as well as none
    ZeroOrNone,
}

/// Where the information of a block begins, the control byte being 1.
pub fn information_place(card: Option<CardNumber>) -> usize
    ensures { result ≡ information_place (cid_seen card) }
{
    match card {
        Some(_) => 3,
        None => 2,
    }
}

impl<'a> Block<'a> {
    /// An I-block with this information.
    pub fn carrying(
        chaining: bool,
        number: bool,
        card: Option<CardNumber>,
        information: &'a [u8],
    ) -> Block<'a>
        ensures { result ≡ I chaining number card (information_place (cid_seen card)) information.entry }
    {
        Block::I {
            chaining,
            number,
            card,
            place: information_place(card),
            information,
        }
    }

    /// R(ACK), or R(NAK).
    pub fn acknowledging(nak: bool, number: bool, card: Option<CardNumber>) -> Block<'a>
        ensures { result ≡ R nak number card }
    {
        Block::R { nak, number, card }
    }

    pub fn deselecting(card: Option<CardNumber>) -> Block<'a>
        ensures { result ≡ Deselect card }
    {
        Block::Deselect { card }
    }

    pub fn waiting(multiplier: u8, power: u8, card: Option<CardNumber>) -> Block<'a>
        ensures { result ≡ Wait multiplier power card }
    {
        Block::Wait {
            multiplier,
            power,
            card,
        }
    }
}
