//! What a reading is, in numbers.
ghost use Rattle.std.specs.Prelude.{◌≡◌};
ghost use Rattle.frames.specs.Faults.{layer_seen, cause_seen};
ghost use Rattle.frames.specs.Reading.{valid, invalid};
ghost use Rattle.frames.specs.Views.{cid_seen, block_seen};
ghost use Rattle.rig.specs.Reports.{layer_number, report, report_of};

use frames::{Block, CardNumber, Cause, Layer, information_place};

/// The kind of a block, its layer and its flags are numbers: C reads them by the header's names.
#[repr(C)]
#[derive(Clone, Copy, Debug, Default, PartialEq, Eq)]
pub struct Report {
    pub kind: u8,
    pub number: u8,
    pub chaining: u8,
    pub nak: u8,
    pub card_given: u8,
    pub card_number: u8,
    pub card_power: u8,
    pub multiplier: u8,
    pub wait_power: u8,
    pub cause: u8,
    pub layer: u8,
    pub place: usize,
    pub length: usize,
}

/// C knows layers by number, so this match stays.
fn layer_number(layer: Layer) -> u8
    ensures { result ≡ layer_number (layer_seen layer) }
{
    match layer {
        Layer::Frame => 1,
        Layer::Activation => 2,
        Layer::Block => 3,
    }
}

/// The report of a block's card number.
fn with_card(card: Option<CardNumber>) -> Report
    ensures { result ≡ report 0 0 0 0 (cid_seen card) 0 0 0 0 0 0 }
{
    card.map_or(
        Report::default(),
        |c| Report {
            card_given: 1,
            card_number: c.number,
            card_power: c.power,
            ..Report::default()
        },
    )
}

pub fn of_block(block: Block<'_>) -> Report
    ensures { result ≡ report_of (valid (block_seen block.entry)) }
{
    match block {
        Block::I {
            chaining,
            number,
            card,
            information,
            ..
        } => Report {
            kind: 1,
            number: u8::from(number),
            chaining: u8::from(chaining),
            place: information_place(card),
            length: information.len(),
            ..with_card(card)
        },
        Block::R { nak, number, card } => Report {
            kind: 2,
            number: u8::from(number),
            nak: u8::from(nak),
            ..with_card(card)
        },
        Block::Deselect { card } => Report {
            kind: 3,
            ..with_card(card)
        },
        Block::Wait {
            multiplier,
            power,
            card,
        } => Report {
            kind: 4,
            multiplier,
            wait_power: power,
            ..with_card(card)
        },
    }
}

pub fn of_cause(cause: Cause) -> Report
    ensures { result ≡ report_of (invalid (cause_seen cause)) }
{
    Report {
        cause: cause.number,
        layer: layer_number(cause.layer),
        place: cause.place,
        ..Report::default()
    }
}
