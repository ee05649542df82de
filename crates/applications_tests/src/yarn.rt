//! The yarn record on tables of commands.
use crate::cases::{Case, check_answer, check_table};
use applications::{RECORD_SIZE, Yarn};
use std::test::Fail;

/// Every fault in the order of judgement, mostly with a later one beside it.
static FAULTS: [Case; 24] = [
    // under 4 bytes, before the class
    Case(b"", b"\x67\x00"),
    Case(b"\x80", b"\x67\x00"),
    Case(b"\x80\xb0\x00", b"\x67\x00"),
    // another class, before the instruction
    Case(b"\x80\xff\x00\x00", b"\x6e\x00"),
    Case(b"\x80\xb0\x00\x00\x01", b"\x6e\x00"),
    // another instruction, before the length
    Case(b"\x00\xff\x00\x00", b"\x6d\x00"),
    Case(b"\x00\xb1\x00\x00\x01", b"\x6d\x00"),
    // length of a read, before the end of the record
    Case(b"\x00\xb0\x00\x00", b"\x67\x00"),
    Case(b"\x00\xb0\xff\xff\x01\x00", b"\x67\x00"),
    // length of a write: no length byte, 00, too few and too many bytes
    Case(b"\x00\xd6\x00\x00", b"\x67\x00"),
    Case(b"\x00\xd6\x00\x00\x00", b"\x67\x00"),
    Case(b"\x00\xd6\xff\xff\x00", b"\x67\x00"),
    Case(b"\x00\xd6\x00\x00\x01", b"\x67\x00"),
    Case(b"\x00\xd6\x00\x00\x02\x01", b"\x67\x00"),
    Case(b"\x00\xd6\x00\x00\x01\x01\x02", b"\x67\x00"),
    // past the end: offset 128, across byte 128, 129 bytes, 256 bytes, far off
    Case(b"\x00\xb0\x00\x80\x01", b"\x6b\x00"),
    Case(b"\x00\xb0\x00\x7f\x02", b"\x6b\x00"),
    Case(b"\x00\xb0\x00\x00\x81", b"\x6b\x00"),
    Case(b"\x00\xb0\x00\x00\x00", b"\x6b\x00"),
    Case(b"\x00\xb0\x01\x00\x01", b"\x6b\x00"),
    Case(b"\x00\xb0\xff\xff\xff", b"\x6b\x00"),
    Case(b"\x00\xd6\x00\x80\x01\xaa", b"\x6b\x00"),
    Case(b"\x00\xd6\x00\x7f\x02\xaa\xbb", b"\x6b\x00"),
    Case(b"\x00\xd6\x01\x00\x01\xaa", b"\x6b\x00"),
];

/// Reads and writes of a record that is filled with 30.
static GOOD: [Case; 9] = [
    // first and last byte
    Case(b"\x00\xb0\x00\x00\x01", b"\x30\x90\x00"),
    Case(b"\x00\xb0\x00\x7f\x01", b"\x30\x90\x00"),
    // to the end of the record
    Case(b"\x00\xd6\x00\x7e\x02\xaa\xbb", b"\x90\x00"),
    Case(b"\x00\xb0\x00\x7c\x04", b"\x30\x30\xaa\xbb\x90\x00"),
    Case(b"\x00\xd6\x00\x7f\x01\x11", b"\x90\x00"),
    Case(b"\x00\xb0\x00\x7e\x02", b"\xaa\x11\x90\x00"),
    // a later write over an earlier one
    Case(b"\x00\xd6\x00\x00\x03\x01\x02\x03", b"\x90\x00"),
    Case(b"\x00\xd6\x00\x01\x01\xff", b"\x90\x00"),
    Case(b"\x00\xb0\x00\x00\x04", b"\x01\xff\x03\x30\x90\x00"),
];

#[test]
fn answers(rt: HostRuntime) -> Result<(), Fail> {
    let mut yarn = Yarn::filled(0x30);
    check_table(&rt, &mut yarn, &FAULTS, 0, 1)?;
    assert_eq!(rt; yarn.bytes(), &[0x30; RECORD_SIZE]);
    check_table(&rt, &mut yarn, &GOOD, 0, 1)
}

/// Writes as long as a command can be, and the whole record at once.
#[test]
fn long_writes(rt: HostRuntime) -> Result<(), Fail> {
    let mut yarn = Yarn::new([0x31; RECORD_SIZE]);
    let mut longest = [0x55; 261];
    longest[0] = 0x00;
    longest[1] = 0xd6;
    longest[2] = 0x00;
    longest[3] = 0x00;
    longest[4] = 0xff;
    check_answer(&rt, &mut yarn, &longest, b"\x67\x00", 0, 1)?;
    check_answer(&rt, &mut yarn, &longest[0..259], b"\x67\x00", 0, 1)?;
    check_answer(&rt, &mut yarn, &longest[0..260], b"\x6b\x00", 0, 1)?;
    longest[4] = 0x81;
    check_answer(&rt, &mut yarn, &longest[0..134], b"\x6b\x00", 0, 1)?;
    assert_eq!(rt; yarn.bytes(), &[0x31; RECORD_SIZE]);
    longest[4] = 0x80;
    check_answer(&rt, &mut yarn, &longest[0..133], b"\x90\x00", 0, 1)?;
    assert_eq!(rt; yarn.bytes(), &[0x55; RECORD_SIZE]);
    let mut whole = [0x55; 130];
    whole[128] = 0x90;
    whole[129] = 0x00;
    check_answer(&rt, &mut yarn, b"\x00\xb0\x00\x00\x80", &whole, 0, 1)
}
