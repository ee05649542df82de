//! Card numbers: none, 0 and 7, and power levels.
use crate::bench::{Turn, Way, metre_scene, settings, yarn_scene};
use std::test::Fail;

/// Without support, blocks with a number are ignored, whatever number RATS gave.
static NONE: [Turn; 4] = [
    Turn(Way::Tells, b"\xe0\x07", b"\x07\x72\x00\x40\x00\x48\x50"),
    Turn(Way::Tells, b"\x0a\x07\x80\x12\x00\x00\x04", b""),
    Turn(Way::Tells, b"\xca\x07", b""),
    Turn(
        Way::Gives,
        b"\x02\x80\x12\x00\x00\x04",
        b"\x02\x00\x00\x00\x64\x90\x00",
    ),
];

/// With number 0, blocks with it and blocks without, each answered in its own way.
static ZERO: [Turn; 6] = [
    Turn(Way::Tells, b"\xe0\x00", b"\x07\x72\x00\x40\x02\x48\x50"),
    Turn(
        Way::Gives,
        b"\x02\x80\x12\x00\x00\x04",
        b"\x02\x00\x00\x00\x64\x90\x00",
    ),
    Turn(
        Way::Gives,
        b"\x0b\x00\x80\x12\x00\x00\x04",
        b"\x0b\x00\x00\x00\x00\x64\x90\x00",
    ),
    Turn(Way::Tells, b"\x0a\x01\x80\x12\x00\x00\x04", b""),
    Turn(Way::Tells, b"\xb2", b"\xa3"),
    Turn(Way::Tells, b"\xca\x00", b"\xca\x00"),
];

/// With number 7, blocks of all power levels with it, answered with level 00. Without number, with another, a reserved one, or
/// a reserved bit: silence.
static SEVEN: [Turn; 10] = [
    Turn(Way::Tells, b"\xe0\x07", b"\x07\x72\x00\x40\x02\x48\x50"),
    Turn(Way::Tells, b"\x02\x80\x12\x00\x00\x04", b""),
    Turn(Way::Tells, b"\x0a\x06\x80\x12\x00\x00\x04", b""),
    Turn(Way::Tells, b"\x0a\x0f\x80\x12\x00\x00\x04", b""),
    Turn(Way::Tells, b"\x0a\x17\x80\x12\x00\x00\x04", b""),
    Turn(Way::Tells, b"\xba\x87", b"\xab\x07"),
    Turn(
        Way::Gives,
        b"\x0a\xc7\x80\x10\x00\x00\x04\x00\x00\x00\x1e",
        b"\xfa\x07\x02",
    ),
    Turn(
        Way::Tells,
        b"\xfa\x47\x82",
        b"\x0a\x07\x00\x00\x00\x46\x90\x00",
    ),
    Turn(Way::Tells, b"\xc2", b""),
    Turn(Way::Tells, b"\xca\x07", b"\xca\x07"),
];

/// With a number a part has one byte less.
static PARTS: [Turn; 3] = [
    Turn(Way::Tells, b"\xe0\x07", b"\x07\x72\x00\x40\x02\x48\x50"),
    Turn(
        Way::Gives,
        b"\x0a\x07\x00\xb0\x00\x00\x10",
        b"\x1a\x07\x5a\x5a\x5a\x5a\x5a\x5a\x5a\x5a\x5a\x5a\x5a\x5a",
    ),
    Turn(Way::Tells, b"\xab\x07", b"\x0b\x07\x5a\x5a\x5a\x5a\x90\x00"),
];

#[test]
fn no_number(rt: HostRuntime) -> Result<(), Fail> {
    metre_scene(&rt, settings(false, 0x00), &NONE, 100, 0, 0)
}

#[test]
fn number_0(rt: HostRuntime) -> Result<(), Fail> {
    metre_scene(&rt, settings(true, 0x00), &ZERO, 100, 0, 0)
}

#[test]
fn number_7(rt: HostRuntime) -> Result<(), Fail> {
    metre_scene(&rt, settings(true, 0x00), &SEVEN, 70, 0, 0)
}

#[test]
fn parts_with_number(rt: HostRuntime) -> Result<(), Fail> {
    yarn_scene(&rt, settings(true, 0x00), &PARTS)
}
