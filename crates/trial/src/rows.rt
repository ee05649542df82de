//! The rows of a script.
ghost use Rattle.std.specs.Prelude.{◌≡◌, ◌++◌, OnOk, string_bytes};
ghost use Rattle.script.specs.Orders.{entry_seen};
ghost use Rattle.text.specs.Reads.{Reads};
ghost use Rattle.text.specs.LineViews.{lines_left};
ghost use Rattle.trial.specs.Outputs.{entry_at, rows_from, first_call};
ghost use Rattle.pair.specs.Pairs.{world_seen, setup_seen};
ghost use Rattle.trial.specs.Played.{Rowed, Fetches};

use super::entry::{step_of, without_check};
use applications::Application;
use buffers::ANSWER_ROOM;
use pair::{Call, Fate, Outcome, Pair};
use script::{Entry, Row, entry_in, write_row};
use std::alloc::{AllocError, Global};
use std::fmt::Write;
use text::{BadLine, Lines, ReadError};

/// The line of the first call, and of the last one that there may be.
const FIRST_CALL: usize = 4;

const LAST_CALL: usize = 515;

/// Appends the row of an exchange that is done: its answer is fetched.
fn push_done<A: Application>(
    pair: &mut Pair<A>,
    out: &mut String,
    word: &str,
) -> Result<(), AllocError>
    ensures { Fetches A.Application.model pair.old pair.new word.now result (string_bytes out.old) (string_bytes out.new) }
{
    let mut answer = [0; ANSWER_ROOM];
    let says = pair.says();
    let len = pair.call(Call::Fetch, Fate::Whole, &mut answer).size();
    write_row(
        out,
        Row {
            word,
            result: 100,
            frame: &[],
            answer: &answer[..len],
            says,
        },
    )
}

/// Plays an entry and appends its row.
fn push_entry<A: Application>(
    pair: &mut Pair<A>,
    out: &mut String,
    entry: &Entry,
) -> Result<(), AllocError>
    ensures { Rowed A.Application.model (entry_seen entry.now) pair.old pair.new result (string_bytes out.old) (string_bytes out.new) }
{
    let mut frame = [0; ANSWER_ROOM];
    let word = entry.word();
    let step = step_of(entry);
    let answer = pair.call(step.call, step.fate, &mut frame);
    let frame = match answer.outcome {
        Ok(Outcome::Answered { .. }) => return push_done(pair, out, word),
        Ok(Outcome::Wrote(sent)) => without_check(&frame[..sent.len]),
        _ => &[],
    };
    write_row(
        out,
        Row {
            word,
            result: usize::from(answer.number()),
            frame,
            answer: &[],
            says: pair.says(),
        },
    )
}

/// The entry of line `n`, if there may be one and it can be read.
fn entry_at(alloc: Global, n: usize, line: &[u8]) -> Result<Entry, ReadError>
    ensures { Reads entry_seen (entry_at n line.now) result }
{
    if n > LAST_CALL {
        return Err(ReadError::Unreadable);
    }
    entry_in(alloc, line)
}

/// Plays the lines of calls, and appends a row for each, up to one that cannot be read.
pub fn push_rows<A: Application>(
    alloc: Global,
    pair: &mut Pair<A>,
    out: &mut String,
    calls: Lines<'_>,
) -> Result<(), AllocError>
    ensures { OnOk result (string_bytes out.new ≡ string_bytes out.old ++ rows_from (setup_seen A.Application.model pair.old) (world_seen pair.old) first_call (lines_left calls.entry)) }
{
    for (i, line) in calls.enumerate() {
        match entry_at(alloc, FIRST_CALL + i, line) {
            Ok(entry) => push_entry(pair, out, &entry)?,
            Err(ReadError::Unreadable) => return write!(out, "{}", BadLine(FIRST_CALL + i)),
            Err(ReadError::OutOfMemory(error)) => return Err(error),
        }
    }
    Ok(())
}
