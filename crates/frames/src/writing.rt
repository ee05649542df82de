//! Writing a block as its frame.
ghost use Rattle.std.specs.Prelude.{◌≡◌, ◌+◌, ◌≤◌, true, ◌∷◌, ◌++◌, length};
ghost use Rattle.buffers.specs.Over.{over};
ghost use Rattle.frames.specs.Blocks.{cid_bytes, bytes_of, frame_of};
ghost use Rattle.frames.specs.Sealing.{written};
ghost use Rattle.frames.specs.Views.{cid_seen, block_seen};
ghost use Rattle.frames.specs.Writing.{cid_in_range, in_range, sendable, writing};

use super::block::{Block, CardNumber, information_place};
use super::control::{CARD, numbered_control, weighed};
use super::frame::{CHECK, GREATEST_FRAME, LONGEST_BODY, close};
use super::refusal::Refusal;
use buffers::put;

fn card_in_range(card: Option<CardNumber>) -> bool
    ensures { result ≡ cid_in_range (cid_seen card) }
{
    card.is_none_or(|c| c.number < 15 && c.power < 4)
}

/// The block's numbers are in their ranges.
fn in_range(block: Block<'_>) -> bool
    ensures { result ≡ in_range (block_seen block.entry) }
{
    match block {
        Block::I { card, .. } | Block::R { card, .. } | Block::Deselect { card } => card_in_range(
            card,
        ),
        Block::Wait {
            multiplier,
            power,
            card,
        } => card_in_range(card) && multiplier > 0 && multiplier < 60 && power < 4,
    }
}

/// Puts a control byte and a card number at the front of `out`, and answers how many bytes these are.
fn put_head(control: u8, card: Option<CardNumber>, out: &mut [u8]) -> usize
    requires { (cid_in_range (cid_seen card) ≡ true) × (2 ≤ length out.old) }
    ensures value { result ≡ length (control ∷ cid_bytes (cid_seen card)) }
    ensures bytes { out.new ≡ over (control ∷ cid_bytes (cid_seen card)) out.old }
{
    match card {
        Some(c) => {
            put(out, 0, &[control, 64 * c.power + c.number]);
            2
        }
        None => {
            put(out, 0, &[control]);
            1
        }
    }
}

/// Puts a block's bytes at the front of `out`, and answers how many these are.
fn put_parts(control: u8, card: Option<CardNumber>, information: &[u8], out: &mut [u8]) -> usize
    requires card { cid_in_range (cid_seen card) ≡ true }
    requires room { length (control ∷ (cid_bytes (cid_seen card) ++ information.now)) + 2 ≤ length out.old }
    ensures value { result ≡ length (control ∷ (cid_bytes (cid_seen card) ++ information.now)) }
    ensures bytes { out.new ≡ over (control ∷ (cid_bytes (cid_seen card) ++ information.now)) out.old }
{
    let n = put_head(control, card, out);
    put(out, n, information);
    n + information.len()
}

/// Puts a block's bytes, without check, at the front of `out`, and answers how many these are.
fn put_block(block: Block<'_>, out: &mut [u8]) -> usize
    requires range { in_range (block_seen block) ≡ true }
    requires room { length (bytes_of (block_seen block)) + 2 ≤ length out.old }
    ensures value { result ≡ length (bytes_of (block_seen block.entry)) }
    ensures bytes { out.new ≡ over (bytes_of (block_seen block.entry)) out.old }
{
    match block {
        Block::I {
            chaining,
            number,
            card,
            information,
            ..
        } => {
            let control = numbered_control(0x02, chaining, card.is_some(), number);
            put_parts(control, card, information, out)
        }
        Block::R { nak, number, card } => {
            let control = numbered_control(0xA2, nak, card.is_some(), number);
            put_parts(control, card, &[], out)
        }
        Block::Deselect { card } => put_parts(0xC2 + weighed(CARD, card.is_some()), card, &[], out),
        Block::Wait {
            multiplier,
            power,
            card,
        } => put_parts(
            0xF2 + weighed(CARD, card.is_some()),
            card,
            &[64 * power + multiplier],
            out,
        ),
    }
}

/// The block's frame is no longer than the greatest, and an I-block has information.
fn is_sendable(block: Block<'_>) -> bool
    ensures { result ≡ sendable (block_seen block.entry) }
{
    match block {
        Block::I {
            card,
            information,
            ..
        } => !information.is_empty()
            && information_place(card) - 1 + information.len() <= LONGEST_BODY,
        Block::R { .. } | Block::Deselect { .. } | Block::Wait { .. } => true,
    }
}

/// Writes the frame of `block` to the front of `out`, and answers its length.
pub fn write_block(block: Block<'_>, out: &mut [u8]) -> Result<usize, Refusal>
    ensures value { result ≡ writing (block_seen block.entry) (length out.old) }
    ensures bytes { out.new ≡ written result (frame_of (block_seen block.entry)) out.old }
{
    if !in_range(block) {
        return Err(Refusal::Setting);
    }
    if out.len() < GREATEST_FRAME {
        return Err(Refusal::Buffer);
    }
    if !is_sendable(block) {
        return Err(Refusal::Length);
    }
    let n = put_block(block, out);
    close(out, n);
    Ok(n + CHECK)
}
