//! Scenes without errors: I-blocks, waits, deselect, chaining both ways. The reader's frame size is 16.
use crate::bench::{Turn, Way, metre_scene, play_turn, settings, yarn_scene};
use applications::Yarn;
use card::{Card, CardSettings};
use std::test::Fail;

/// Two exchanges.
static EXCHANGE: [Turn; 3] = [
    Turn(Way::Tells, b"\xe0\x00", b"\x07\x72\x00\x40\x00\x48\x50"),
    Turn(
        Way::Gives,
        b"\x02\x80\x12\x00\x00\x04",
        b"\x02\x00\x00\x00\x64\x90\x00",
    ),
    Turn(
        Way::Gives,
        b"\x03\x80\x12\x00\x00\x04",
        b"\x03\x00\x00\x00\x64\x90\x00",
    ),
];

/// A draw of 30 metres asks for one wait.
static WAIT: [Turn; 4] = [
    Turn(Way::Tells, b"\xe0\x00", b"\x07\x72\x00\x40\x00\x48\x50"),
    Turn(
        Way::Gives,
        b"\x02\x80\x10\x00\x00\x04\x00\x00\x00\x1e",
        b"\xf2\x02",
    ),
    Turn(Way::Tells, b"\xf2\x02", b"\x02\x00\x00\x00\x46\x90\x00"),
    Turn(
        Way::Gives,
        b"\x03\x80\x12\x00\x00\x04",
        b"\x03\x00\x00\x00\x46\x90\x00",
    ),
];

/// Behind deselect nothing is answered.
static DESELECT: [Turn; 7] = [
    Turn(Way::Tells, b"\xe0\x00", b"\x07\x72\x00\x40\x00\x48\x50"),
    Turn(
        Way::Gives,
        b"\x02\x80\x12\x00\x00\x04",
        b"\x02\x00\x00\x00\x64\x90\x00",
    ),
    Turn(Way::Tells, b"\xc2", b"\xc2"),
    Turn(Way::Tells, b"\xc2", b""),
    Turn(Way::Tells, b"\x03\x80\x12\x00\x00\x04", b""),
    Turn(Way::Tells, b"\xb3", b""),
    Turn(Way::Tells, b"\xe0\x00", b""),
];

/// The reader chains.
static READER_CHAINS: [Turn; 4] = [
    Turn(Way::Tells, b"\xe0\x00", b"\x07\x72\x00\x40\x00\x48\x50"),
    Turn(Way::Tells, b"\x12\x80\x12", b"\xa2"),
    Turn(
        Way::Gives,
        b"\x03\x00\x00\x04",
        b"\x03\x00\x00\x00\x64\x90\x00",
    ),
    Turn(
        Way::Gives,
        b"\x02\x80\x12\x00\x00\x04",
        b"\x02\x00\x00\x00\x64\x90\x00",
    ),
];

/// The card chains: 16 bytes and a status word in parts of 13.
static CARD_CHAINS: [Turn; 4] = [
    Turn(Way::Tells, b"\xe0\x00", b"\x07\x72\x00\x40\x00\x48\x50"),
    Turn(
        Way::Gives,
        b"\x02\x00\xb0\x00\x00\x10",
        b"\x12\x5a\x5a\x5a\x5a\x5a\x5a\x5a\x5a\x5a\x5a\x5a\x5a\x5a",
    ),
    Turn(Way::Tells, b"\xa3", b"\x03\x5a\x5a\x5a\x90\x00"),
    Turn(Way::Gives, b"\x02\x00\xb0\x00\x00\x01", b"\x02\x5a\x90\x00"),
];

#[test]
fn exchange_of_blocks(rt: HostRuntime) -> Result<(), Fail> {
    metre_scene(&rt, settings(false, 0x00), &EXCHANGE, 100, 0, 0)
}

#[test]
fn waiting_time_extension(rt: HostRuntime) -> Result<(), Fail> {
    metre_scene(&rt, settings(false, 0x00), &WAIT, 70, 0, 0)
}

#[test]
fn deselect(rt: HostRuntime) -> Result<(), Fail> {
    metre_scene(&rt, settings(false, 0x00), &DESELECT, 100, 0, 0)
}

#[test]
fn reader_chains(rt: HostRuntime) -> Result<(), Fail> {
    metre_scene(&rt, settings(false, 0x00), &READER_CHAINS, 100, 0, 0)
}

#[test]
fn card_chains(rt: HostRuntime) -> Result<(), Fail> {
    yarn_scene(&rt, settings(false, 0x00), &CARD_CHAINS)
}

/// Past 261 bytes a block is ignored, and the card's number does not toggle.
#[test]
fn longest_command(rt: HostRuntime) -> Result<(), Fail> {
    let settings = CardSettings {
        fsci: 8,
        ..settings(false, 0x00)
    };
    let Ok(mut card) = Card::new(settings, Yarn::filled(0)) else {
        return Err(Fail::new("refused"));
    };
    play_turn(
        &rt,
        &mut card,
        Way::Tells,
        b"\xe0\x00",
        b"\x07\x78\x00\x40\x00\x48\x50",
    )?;
    let mut first = [0; 251];
    first[0] = 0x12;
    play_turn(&rt, &mut card, Way::Tells, &first, b"\xa2")?;
    let mut second = [0; 12];
    second[0] = 0x13;
    play_turn(&rt, &mut card, Way::Tells, &second, b"\xa3")?;
    play_turn(&rt, &mut card, Way::Tells, b"\x02\x00", b"")?;
    play_turn(&rt, &mut card, Way::Tells, b"\xb2", b"\xa3")
}
