//! Scenes with lost and spoilt frames. A frame that was lost on its way to the card is not played.
use crate::bench::{Turn, Way, metre_scene, settings, yarn_scene};
use std::test::Fail;

/// The card has taken nothing: R(NAK) 0 is answered by R(ACK) 1.
static START: [Turn; 5] = [
    Turn(Way::Tells, b"\xe0\x00", b"\x07\x72\x00\x40\x00\x48\x50"),
    Turn(Way::Spoilt, b"\x02\x80\x12\x00\x00\x04", b""),
    Turn(Way::Tells, b"\xb2", b"\xa3"),
    Turn(
        Way::Gives,
        b"\x02\x80\x12\x00\x00\x04",
        b"\x02\x00\x00\x00\x64\x90\x00",
    ),
    Turn(
        Way::Gives,
        b"\x03\x80\x12\x00\x00\x04",
        b"\x03\x00\x00\x00\x64\x90\x00",
    ),
];

/// The second command did not arrive.
static COMMAND_LOST: [Turn; 6] = [
    Turn(Way::Tells, b"\xe0\x00", b"\x07\x72\x00\x40\x00\x48\x50"),
    Turn(
        Way::Gives,
        b"\x02\x80\x12\x00\x00\x04",
        b"\x02\x00\x00\x00\x64\x90\x00",
    ),
    Turn(Way::Spoilt, b"\x03\x80\x12\x00\x00\x04", b""),
    Turn(Way::Tells, b"\xb3", b"\xa2"),
    Turn(
        Way::Gives,
        b"\x03\x80\x12\x00\x00\x04",
        b"\x03\x00\x00\x00\x64\x90\x00",
    ),
    Turn(
        Way::Gives,
        b"\x02\x80\x12\x00\x00\x04",
        b"\x02\x00\x00\x00\x64\x90\x00",
    ),
];

/// The answer did not arrive: it is sent again, and the application is not asked again.
static ANSWER_LOST: [Turn; 5] = [
    Turn(Way::Tells, b"\xe0\x00", b"\x07\x72\x00\x40\x00\x48\x50"),
    Turn(
        Way::Gives,
        b"\x02\x80\x12\x00\x00\x04",
        b"\x02\x00\x00\x00\x64\x90\x00",
    ),
    Turn(Way::Tells, b"\xb2", b"\x02\x00\x00\x00\x64\x90\x00"),
    Turn(Way::Tells, b"\xb2", b"\x02\x00\x00\x00\x64\x90\x00"),
    Turn(
        Way::Gives,
        b"\x03\x80\x12\x00\x00\x04",
        b"\x03\x00\x00\x00\x64\x90\x00",
    ),
];

/// The request for a wait, its grant, and then the answer, did not arrive. Another multiplier, and a command, are not answered.
static WAIT_LOST: [Turn; 9] = [
    Turn(Way::Tells, b"\xe0\x00", b"\x07\x72\x00\x40\x00\x48\x50"),
    Turn(
        Way::Gives,
        b"\x02\x80\x10\x00\x00\x04\x00\x00\x00\x1e",
        b"\xf2\x02",
    ),
    Turn(Way::Tells, b"\xb2", b"\xf2\x02"),
    Turn(Way::Spoilt, b"\xf2\x02", b""),
    Turn(Way::Tells, b"\xb2", b"\xf2\x02"),
    Turn(Way::Tells, b"\xf2\x03", b""),
    Turn(Way::Tells, b"\x02\x80\x10\x00\x00\x04\x00\x00\x00\x1e", b""),
    Turn(Way::Tells, b"\xf2\x02", b"\x02\x00\x00\x00\x46\x90\x00"),
    Turn(Way::Tells, b"\xb2", b"\x02\x00\x00\x00\x46\x90\x00"),
];

/// The reader chains: its first part's R(ACK), and then its last part, did not arrive.
static READER_CHAINS: [Turn; 5] = [
    Turn(Way::Tells, b"\xe0\x00", b"\x07\x72\x00\x40\x00\x48\x50"),
    Turn(Way::Tells, b"\x12\x80\x12", b"\xa2"),
    Turn(Way::Tells, b"\xb2", b"\xa2"),
    Turn(Way::Tells, b"\xb3", b"\xa2"),
    Turn(
        Way::Gives,
        b"\x03\x00\x00\x04",
        b"\x03\x00\x00\x00\x64\x90\x00",
    ),
];

/// The card chains: its first part, the reader's R(ACK) and its last part did not arrive. With nothing owed R(ACK) of the
/// other number is not answered.
static CARD_CHAINS: [Turn; 7] = [
    Turn(Way::Tells, b"\xe0\x00", b"\x07\x72\x00\x40\x00\x48\x50"),
    Turn(
        Way::Gives,
        b"\x02\x00\xb0\x00\x00\x10",
        b"\x12\x5a\x5a\x5a\x5a\x5a\x5a\x5a\x5a\x5a\x5a\x5a\x5a\x5a",
    ),
    Turn(
        Way::Tells,
        b"\xb2",
        b"\x12\x5a\x5a\x5a\x5a\x5a\x5a\x5a\x5a\x5a\x5a\x5a\x5a\x5a",
    ),
    Turn(Way::Spoilt, b"\xa3", b""),
    Turn(Way::Tells, b"\xa3", b"\x03\x5a\x5a\x5a\x90\x00"),
    Turn(Way::Tells, b"\xa3", b"\x03\x5a\x5a\x5a\x90\x00"),
    Turn(Way::Tells, b"\xa2", b""),
];

static DESELECT: [Turn; 4] = [
    Turn(Way::Tells, b"\xe0\x00", b"\x07\x72\x00\x40\x00\x48\x50"),
    Turn(Way::Spoilt, b"\xc2", b""),
    Turn(Way::Tells, b"\xc2", b"\xc2"),
    Turn(Way::Tells, b"\xc2", b""),
];

#[test]
fn start_of_protocol(rt: HostRuntime) -> Result<(), Fail> {
    metre_scene(&rt, settings(false, 0x00), &START, 100, 0, 0)
}

#[test]
fn command_lost(rt: HostRuntime) -> Result<(), Fail> {
    metre_scene(&rt, settings(false, 0x00), &COMMAND_LOST, 100, 0, 0)
}

#[test]
fn answer_lost(rt: HostRuntime) -> Result<(), Fail> {
    metre_scene(&rt, settings(false, 0x00), &ANSWER_LOST, 100, 0, 0)
}

#[test]
fn wait_lost(rt: HostRuntime) -> Result<(), Fail> {
    metre_scene(&rt, settings(false, 0x00), &WAIT_LOST, 70, 0, 0)
}

#[test]
fn reader_chains(rt: HostRuntime) -> Result<(), Fail> {
    metre_scene(&rt, settings(false, 0x00), &READER_CHAINS, 100, 0, 0)
}

#[test]
fn card_chains(rt: HostRuntime) -> Result<(), Fail> {
    yarn_scene(&rt, settings(false, 0x00), &CARD_CHAINS)
}

#[test]
fn deselect_spoilt(rt: HostRuntime) -> Result<(), Fail> {
    metre_scene(&rt, settings(false, 0x00), &DESELECT, 100, 0, 0)
}
