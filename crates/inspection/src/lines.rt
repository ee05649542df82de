//! Input, line by line.
ghost use Rattle.std.specs.Prelude.{◌≡◌, ◌++◌, OnOk, string_bytes};
ghost use Rattle.inspection.specs.Lines.{output};

use super::answer::push_answer;
use super::job::job_of;
use std::alloc::{AllocError, Global};
use text::{BadLine, Lines, ReadError};

/// Appends an answer for each line of `input`, up to one that cannot be read.
pub fn write_output(alloc: Global, out: &mut String, input: &[u8]) -> Result<(), AllocError>
    ensures { OnOk result (string_bytes out.new ≡ string_bytes out.old ++ output input.now) }
{
    for (i, line) in Lines::new(input).enumerate() {
        match job_of(alloc, line) {
            Ok(job) => push_answer(out, &job)?,
            Err(ReadError::Unreadable) => return write!(out, "{}", BadLine(i + 1)),
            Err(ReadError::OutOfMemory(error)) => return Err(error),
        }
    }
    Ok(())
}

/// The same, behind bytes.
pub fn push_output(alloc: Global, out: &mut Vec<u8>, input: &[u8]) -> Result<(), AllocError>
    ensures { OnOk result (out.new.items ≡ out.old.items ++ output input.now) }
{
    let mut text = String::new(alloc);
    write_output(alloc, &mut text, input)?;
    if out.is_empty() {
        *out = Vec::from(text);
        return Ok(());
    }
    out.extend_from_slice(text.as_bytes())
}
