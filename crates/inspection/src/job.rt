//! The job that a line asks for.
ghost use Rattle.std.specs.Option.{option_map};
ghost use Rattle.text.specs.Hex.{bytes_in};
ghost use Rattle.text.specs.Reads.{Reads};
ghost use Rattle.text.specs.Words.{cut_of};
ghost use Rattle.inspection.specs.Jobs.{task_seen};
ghost use Rattle.inspection.specs.Tasks.{sealing, task_of, with_limit, with_fsd};

use super::words::{card_in, limit_in};
use frames::Agreed;
use std::alloc::Global;
use text::{ReadError, bytes_in, cut};

#[derive(Drop)]
pub enum Job {
    Seal {
        body: Vec<u8>,
    },
    Read {
        limit: usize,
        agreed: Agreed,
        frame: Vec<u8>,
    },
    Ats {
        fsd: usize,
        frame: Vec<u8>,
    },
}

/// BODY
fn seal_job(alloc: Global, field: &[u8]) -> Result<Job, ReadError>
    ensures { Reads task_seen (option_map (λ b. sealing b) (bytes_in field.now)) result }
{
    let body = bytes_in(alloc, field)?;
    Ok(Job::Seal { body })
}

/// LIMIT CARD FRAME
fn read_job(alloc: Global, fields: &[u8]) -> Result<Job, ReadError>
    ensures { Reads task_seen (with_limit (cut_of fields.now)) result }
{
    let (limit, rest) = cut(fields).ok_or(ReadError::Unreadable)?;
    let limit = limit_in(limit).ok_or(ReadError::Unreadable)?;
    let (card, frame) = cut(rest).ok_or(ReadError::Unreadable)?;
    let agreed = card_in(card).ok_or(ReadError::Unreadable)?;
    let frame = bytes_in(alloc, frame)?;
    Ok(Job::Read {
        limit,
        agreed,
        frame,
    })
}

/// FSD FRAME
fn ats_job(alloc: Global, fields: &[u8]) -> Result<Job, ReadError>
    ensures { Reads task_seen (with_fsd (cut_of fields.now)) result }
{
    let (fsd, frame) = cut(fields).ok_or(ReadError::Unreadable)?;
    let fsd = limit_in(fsd).ok_or(ReadError::Unreadable)?;
    let frame = bytes_in(alloc, frame)?;
    Ok(Job::Ats { fsd, frame })
}

/// The job that `line` asks for, if it can be read.
pub fn job_of(alloc: Global, line: &[u8]) -> Result<Job, ReadError>
    ensures { Reads task_seen (task_of line.now) result }
{
    let (word, rest) = cut(line).ok_or(ReadError::Unreadable)?;
    match word {
        b"seal" => seal_job(alloc, rest),
        b"read" => read_job(alloc, rest),
        b"ats" => ats_job(alloc, rest),
        _ => Err(ReadError::Unreadable),
    }
}
