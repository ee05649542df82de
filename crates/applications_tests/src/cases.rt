//! Commands, and how they are answered.
use applications::{Application, LONGEST_ANSWER};
use std::process::Abort;
use std::test::Fail;

/// A command and its answer.
pub struct Case(pub &'static [u8], pub &'static [u8]);

/// What lies in the buffer before an answer is put there.
const UNTOUCHED: u8 = 0xee;

/// Gives the application a command and compares all that it does, the buffer behind the answer too.
pub(crate) fn check_answer<A: Application>(
    rt: &impl Abort,
    app: &mut A,
    command: &[u8],
    answer: &[u8],
    waits: u8,
    multiplier: u8,
) -> Result<(), Fail> {
    let mut buffer = [UNTOUCHED; LONGEST_ANSWER];
    let reply = app.respond(command, &mut buffer);
    let len = reply.len;
    assert_eq!(rt; reply.waits, waits, "command {command:?}");
    assert_eq!(rt; reply.multiplier, multiplier, "command {command:?}");
    assert!(rt; len <= LONGEST_ANSWER, "command {command:?}");
    let (front, rest) = buffer.split_at(len);
    assert_eq!(rt; front, answer, "command {command:?}");
    for byte in rest {
        assert_eq!(rt; *byte, UNTOUCHED, "command {command:?}");
    }
    Ok(())
}

/// The commands of a table one after the other, all with the same waits.
pub(crate) fn check_table<A: Application>(
    rt: &impl Abort,
    app: &mut A,
    table: &[Case],
    waits: u8,
    multiplier: u8,
) -> Result<(), Fail> {
    for case in table {
        check_answer(rt, app, case.0, case.1, waits, multiplier)?;
    }
    Ok(())
}
