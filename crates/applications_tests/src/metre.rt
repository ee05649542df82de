//! The metre counter on tables of commands.
use crate::cases::{Case, check_table};
use applications::Metre;
use std::test::Fail;

/// Every fault in the order of judgement, mostly with a later one beside it, and an ask.
static FAULTS: [Case; 20] = [
    // under 4 bytes, before the class
    Case(b"", b"\x67\x00"),
    Case(b"\x00", b"\x67\x00"),
    Case(b"\x00\x10\x00", b"\x67\x00"),
    // another class, before the instruction
    Case(b"\x00\xff\x00\x00", b"\x6e\x00"),
    Case(b"\x00\x10\x00\x00\x04\x00\x00\x00\x01", b"\x6e\x00"),
    // another instruction, before the parameters
    Case(b"\x80\x11\x01\x00", b"\x6d\x00"),
    Case(b"\x80\x11\x00\x00\x04", b"\x6d\x00"),
    // parameters, before the length
    Case(b"\x80\x10\x01\x00", b"\x6b\x00"),
    Case(b"\x80\x10\x00\x01", b"\x6b\x00"),
    Case(b"\x80\x12\x00\x01\x04", b"\x6b\x00"),
    Case(b"\x80\x10\x01\x00\x04\x00\x00\x00\x01", b"\x6b\x00"),
    // length
    Case(b"\x80\x10\x00\x00", b"\x67\x00"),
    Case(b"\x80\x10\x00\x00\x04", b"\x67\x00"),
    Case(b"\x80\x10\x00\x00\x04\x00\x00\x01", b"\x67\x00"),
    Case(b"\x80\x10\x00\x00\x04\x00\x00\x00\x01\x00", b"\x67\x00"),
    Case(b"\x80\x10\x00\x00\x03\x00\x00\x00\x01", b"\x67\x00"),
    Case(b"\x80\x12\x00\x00", b"\x67\x00"),
    Case(b"\x80\x12\x00\x00\x03", b"\x67\x00"),
    Case(b"\x80\x12\x00\x00\x04\x00", b"\x67\x00"),
    // nothing was drawn
    Case(b"\x80\x12\x00\x00\x04", b"\x00\x00\x00\x64\x90\x00"),
];

/// Draws from a count of 100, each after one wait with multiplier 2.
static DRAWS: [Case; 7] = [
    // nothing
    Case(
        b"\x80\x10\x00\x00\x04\x00\x00\x00\x00",
        b"\x00\x00\x00\x64\x90\x00",
    ),
    // some
    Case(
        b"\x80\x10\x00\x00\x04\x00\x00\x00\x1e",
        b"\x00\x00\x00\x46\x90\x00",
    ),
    // one more than the rest
    Case(
        b"\x80\x10\x00\x00\x04\x00\x00\x00\x47",
        b"\x00\x00\x00\x46\x69\x85",
    ),
    Case(
        b"\x80\x10\x00\x00\x04\xff\xff\xff\xff",
        b"\x00\x00\x00\x46\x69\x85",
    ),
    // exactly the rest
    Case(
        b"\x80\x10\x00\x00\x04\x00\x00\x00\x46",
        b"\x00\x00\x00\x00\x90\x00",
    ),
    // from nothing
    Case(
        b"\x80\x10\x00\x00\x04\x00\x00\x00\x01",
        b"\x00\x00\x00\x00\x69\x85",
    ),
    Case(
        b"\x80\x10\x00\x00\x04\x00\x00\x00\x00",
        b"\x00\x00\x00\x00\x90\x00",
    ),
];

/// Asks when all is drawn.
static EMPTY: [Case; 1] = [Case(b"\x80\x12\x00\x00\x04", b"\x00\x00\x00\x00\x90\x00")];

/// Counts with four bytes.
static HIGH: [Case; 3] = [
    Case(
        b"\x80\x10\x00\x00\x04\x01\x02\x03\x04",
        b"\xfe\xfd\xfc\xfb\x90\x00",
    ),
    Case(
        b"\x80\x10\x00\x00\x04\xfe\xfd\xfc\xfc",
        b"\xfe\xfd\xfc\xfb\x69\x85",
    ),
    Case(
        b"\x80\x10\x00\x00\x04\xfe\xfd\xfc\xfb",
        b"\x00\x00\x00\x00\x90\x00",
    ),
];

#[test]
fn answers(rt: HostRuntime) -> Result<(), Fail> {
    let mut metre = Metre::new(100);
    check_table(&rt, &mut metre, &FAULTS, 0, 1)?;
    assert_eq!(rt; metre.count(), 100);
    check_table(&rt, &mut metre, &DRAWS, 1, 2)?;
    check_table(&rt, &mut metre, &EMPTY, 0, 1)?;
    assert_eq!(rt; metre.count(), 0);
    let mut high = Metre::new(u32::MAX);
    check_table(&rt, &mut high, &HIGH, 1, 2)
}
