//! RATS and PPS.
use crate::bench::{Turn, Way, metre_scene, settings};
use std::test::Fail;

/// Nothing is answered before RATS, nor a RATS that is spoilt, or has a reserved size code or the number 15.
static ASLEEP: [Turn; 7] = [
    Turn(Way::Tells, b"\x02\x80\x12\x00\x00\x04", b""),
    Turn(Way::Tells, b"\xc2", b""),
    Turn(Way::Tells, b"\xd0\x11\x00", b""),
    Turn(Way::Tells, b"\xe0\x90", b""),
    Turn(Way::Tells, b"\xe0\x0f", b""),
    Turn(Way::Spoilt, b"\xe0\x81", b""),
    Turn(Way::Tells, b"\xe0\x81", b"\x07\x72\x77\x40\x02\x48\x50"),
];

/// The first PPS is answered, and its divisors hold; no second one is.
static PPS: [Turn; 4] = [
    Turn(Way::Tells, b"\xe0\x81", b"\x07\x72\x77\x40\x02\x48\x50"),
    Turn(Way::Tells, b"\xd1\x11\x09", b"\xd1"),
    Turn(Way::Tells, b"\xd1\x11\x05", b""),
    Turn(
        Way::Gives,
        b"\x0a\x01\x80\x12\x00\x00\x04",
        b"\x0a\x01\x00\x00\x00\x64\x90\x00",
    ),
];

/// A spoilt frame closes the window.
static SPOILT: [Turn; 4] = [
    Turn(Way::Tells, b"\xe0\x81", b"\x07\x72\x77\x40\x02\x48\x50"),
    Turn(Way::Spoilt, b"\xd1\x11\x09", b""),
    Turn(Way::Tells, b"\xd1\x11\x09", b""),
    Turn(
        Way::Gives,
        b"\x0a\x01\x80\x12\x00\x00\x04",
        b"\x0a\x01\x00\x00\x00\x64\x90\x00",
    ),
];

/// A second RATS is not answered, and closes the window.
static SECOND_RATS: [Turn; 4] = [
    Turn(Way::Tells, b"\xe0\x81", b"\x07\x72\x77\x40\x02\x48\x50"),
    Turn(Way::Tells, b"\xe0\x81", b""),
    Turn(Way::Tells, b"\xd1\x11\x09", b""),
    Turn(
        Way::Gives,
        b"\x0a\x01\x80\x12\x00\x00\x04",
        b"\x0a\x01\x00\x00\x00\x64\x90\x00",
    ),
];

/// A PPS for another card closes it too.
static OTHER_NUMBER: [Turn; 3] = [
    Turn(Way::Tells, b"\xe0\x81", b"\x07\x72\x77\x40\x02\x48\x50"),
    Turn(Way::Tells, b"\xd2\x11\x09", b""),
    Turn(Way::Tells, b"\xd1\x11\x09", b""),
];

/// Only divisor 2 is offered, both ways: 4 and 2 are not answered, and then neither are 2 and 2.
static NOT_OFFERED: [Turn; 4] = [
    Turn(Way::Tells, b"\xe0\x81", b"\x07\x72\x11\x40\x02\x48\x50"),
    Turn(Way::Tells, b"\xd1\x11\x09", b""),
    Turn(Way::Tells, b"\xd1\x11\x05", b""),
    Turn(
        Way::Gives,
        b"\x0a\x01\x80\x12\x00\x00\x04",
        b"\x0a\x01\x00\x00\x00\x64\x90\x00",
    ),
];

#[test]
fn asleep(rt: HostRuntime) -> Result<(), Fail> {
    metre_scene(&rt, settings(true, 0x77), &ASLEEP, 100, 0, 0)
}

/// 4 from the card, 2 to it.
#[test]
fn pps(rt: HostRuntime) -> Result<(), Fail> {
    metre_scene(&rt, settings(true, 0x77), &PPS, 100, 2, 1)
}

#[test]
fn pps_after_a_spoilt_frame(rt: HostRuntime) -> Result<(), Fail> {
    metre_scene(&rt, settings(true, 0x77), &SPOILT, 100, 0, 0)
}

#[test]
fn pps_after_a_second_rats(rt: HostRuntime) -> Result<(), Fail> {
    metre_scene(&rt, settings(true, 0x77), &SECOND_RATS, 100, 0, 0)
}

#[test]
fn pps_of_another_number(rt: HostRuntime) -> Result<(), Fail> {
    metre_scene(&rt, settings(true, 0x77), &OTHER_NUMBER, 100, 0, 0)
}

#[test]
fn pps_not_offered(rt: HostRuntime) -> Result<(), Fail> {
    metre_scene(&rt, settings(true, 0x11), &NOT_OFFERED, 100, 0, 0)
}
