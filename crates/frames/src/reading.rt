//! Reading a received frame as a block: the tests in their order, each with its fault.
ghost use Rattle.std.specs.Prelude.{◌≡◌, ℕ, ◌/◌, ◌%◌, ◌<◌, true, List, [], ◌∷◌, length, drop, if◌then◌else◌, slice_index, Some, None, IfOk};
ghost use Rattle.frames.specs.Blocks.{follows, wait, ValidBlock};
ghost use Rattle.frames.specs.Causes.{multiplier_reserved};
ghost use Rattle.frames.specs.Check.{body_of};
ghost use Rattle.frames.specs.Kinds.{kind_seen};
ghost use Rattle.frames.specs.Reading.{has, length_fits, cid_size, cid_of, cid_good, agrees, block_of, read_rest, read_body, read_frame, multiplier_good, valid, invalid};
ghost use Rattle.frames.specs.Views.{cid_seen, block_seen, agreement, seen, information_place, Placed};

use super::block::{Agreed, Block, CardNumber, information_place};
use super::control::{CARD, FLAG, NUMBER, has_bit};
use super::fault::BlockFault;
use super::frame::unseal;
use super::kind::{Kind, kind_of};

/// As many bytes stand behind the control byte as blocks of the kind have.
fn fits(kind: Kind, follows: bool, n: usize) -> bool
    ensures { result ≡ length_fits (kind_seen (Some kind)) follows n }
{
    let card = usize::from(follows);
    match kind {
        Kind::I => n > card,
        Kind::R | Kind::Deselect => n == card,
        Kind::Wait => n == card + 1,
    }
}

impl Agreed {
    /// The receiver takes blocks with this card number, or without.
    pub fn takes(self, card: Option<CardNumber>) -> bool
        ensures { result ≡ agrees (agreement self) (cid_seen card) }
    {
        match (self, card) {
            (Agreed::Number(n), Some(c)) => c.number == n,
            (Agreed::ZeroOrNone, Some(c)) => c.number == 0,
            (Agreed::NoNumber | Agreed::ZeroOrNone, None) => true,
            (Agreed::NoNumber, Some(_)) | (Agreed::Number(_), None) => false,
        }
    }
}

/// The card number byte behind the control byte, where one follows.
fn card_byte(follows: bool, rest: &[u8]) -> Option<u8>
    requires { follows ≡ true → 0 < length rest.now }
    ensures { result ≡ (if follows then Some (slice_index rest.now 0) else None) }
{
    follows.then(|| rest[0])
}

/// A card number byte is one: 00 in b6 b5, and no number 15.
fn is_card_number(byte: u8) -> bool
    ensures { result ≡ cid_good true (byte ∷ []) }
{
    byte & 0x30 == 0 && byte % 16 < 15
}

impl From<u8> for CardNumber {
    ghost from_gives = { λ byte card. cid_seen (Some card) ≡ cid_of true (byte ∷ []) };

    /// The card number and the power level of a card number byte.
    fn from(byte: u8) -> CardNumber {
        CardNumber {
            number: byte % 16,
            power: byte / 64,
        }
    }
}

/// The wait block of a multiplier byte.
fn wait_of<'a>(byte: u8, card: Option<CardNumber>) -> Result<Block<'a>, BlockFault>
    ensures value { seen result ≡ (if multiplier_good byte then valid (wait (byte % 64) (byte / 64) (cid_seen card)) else invalid (multiplier_reserved (information_place (cid_seen card)))) }
    ensures placed { (bytes : List ℕ) → Placed 2 bytes result }
{
    let multiplier = byte % 64;
    if multiplier == 0 || multiplier > 59 {
        return Err(BlockFault::Multiplier {
            place: information_place(card),
        });
    }
    Ok(Block::Wait {
        multiplier,
        power: byte / 64,
        card,
    })
}

/// The block of a kind, from its control byte, its card number and the bytes behind the control byte.
fn block_of<'a>(
    kind: Kind,
    control: u8,
    card: Option<CardNumber>,
    rest: &'a [u8],
) -> Result<Block<'a>, BlockFault>
    requires follows { follows (cid_seen card) ≡ has 0x08 control }
    requires long { length_fits (kind_seen (Some kind)) (has 0x08 control) (length rest.now) ≡ true }
    ensures value { seen result ≡ block_of (kind_seen (Some kind)) control (cid_seen card) (drop (cid_size (has 0x08 control)) rest.now) }
    ensures placed { Placed 2 rest.now result }
{
    let place = information_place(card);
    match kind {
        Kind::I => Ok(Block::I {
            chaining: has_bit(FLAG, control),
            number: has_bit(NUMBER, control),
            card,
            place,
            information: &rest[place - 2..],
        }),
        Kind::R => Ok(Block::R {
            nak: has_bit(FLAG, control),
            number: has_bit(NUMBER, control),
            card,
        }),
        Kind::Deselect => Ok(Block::Deselect { card }),
        Kind::Wait => wait_of(rest[place - 2], card),
    }
}

/// The tests behind that of the kind: length, card number, multiplier.
fn read_rest<'a>(
    agreed: Agreed,
    kind: Kind,
    control: u8,
    rest: &'a [u8],
) -> Result<Block<'a>, BlockFault>
    ensures value { seen result ≡ read_rest (agreement agreed) (kind_seen (Some kind)) control rest.now }
    ensures placed { Placed 2 rest.now result }
{
    let follows = has_bit(CARD, control);
    if !fits(kind, follows, rest.len()) {
        return Err(BlockFault::Length);
    }
    let byte = card_byte(follows, rest);
    let card = byte.map(CardNumber::from);
    if !byte.is_none_or(is_card_number) || !agreed.takes(card) {
        return Err(BlockFault::Card);
    }
    block_of(kind, control, card, rest)
}

fn read_body<'a>(agreed: Agreed, body: &'a [u8]) -> Result<Block<'a>, BlockFault>
    ensures value { seen result ≡ read_body (agreement agreed) body.now }
    ensures placed { Placed 1 body.now result }
{
    let Some((control, rest)) = body.split_first() else {
        return Err(BlockFault::Control);
    };
    let Some(kind) = kind_of(*control) else {
        return Err(BlockFault::Control);
    };
    read_rest(agreed, kind, *control, rest)
}

/// Reads a frame as a receiver does whose frame size is `limit`. The information of an I-block is a part of `frame`.
pub fn read_block<'a>(
    frame: &'a [u8],
    limit: usize,
    agreed: Agreed,
) -> Result<Block<'a>, BlockFault>
    ensures value { seen result ≡ read_frame limit (agreement agreed) frame.now }
    ensures valid { IfOk result (λ b. ValidBlock (block_seen b)) }
    ensures placed { Placed 1 (body_of frame.now) result }
{
    let body = unseal(frame, limit)?;
    read_body(agreed, body)
}
