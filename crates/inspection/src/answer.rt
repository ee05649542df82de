//! The answer to a job.
ghost use Rattle.std.specs.Prelude.{◌≡◌, ◌≤◌, Some, ◌++◌, OnOk, string_bytes};
ghost use Rattle.frames.specs.Sizes.{size_of, greatest_code};
ghost use Rattle.frames.specs.Views.{agreement};
ghost use Rattle.activation.specs.Ats.{good};
ghost use Rattle.activation.specs.Laws.{ValidAts};
ghost use Rattle.activation.specs.Views.{said_by};
ghost use Rattle.inspection.specs.Jobs.{task_seen};
ghost use Rattle.inspection.specs.Lines.{line_text};
ghost use Rattle.inspection.specs.Tasks.{sealing, reading, hearing};
ghost use Rattle.inspection.specs.Texts.{ats_line};

use super::job::Job;
use super::printing::{BlockText, CauseText};
use activation::{Ats, hear_ats, size_of_code};
use frames::{Agreed, GREATEST_FRAME, read_block, seal};
use std::alloc::AllocError;
use text::Hex;

/// Appends what sealing a body gives.
fn push_sealing(out: &mut String, body: &[u8]) -> Result<(), AllocError>
    ensures { OnOk result (string_bytes out.new ≡ string_bytes out.old ++ line_text (Some (sealing body.now))) }
{
    let mut buffer = [0u8; GREATEST_FRAME];
    match seal(body, &mut buffer) {
        Ok(n) => writeln!(out, "seal 0 {}", Hex(&buffer[..n])),
        Err(refusal) => writeln!(out, "seal {} -", refusal.number()),
    }
}

/// Appends what reading a frame gives.
fn push_reading(
    out: &mut String,
    limit: usize,
    agreed: Agreed,
    frame: &[u8],
) -> Result<(), AllocError>
    ensures { OnOk result (string_bytes out.new ≡ string_bytes out.old ++ line_text (Some (reading limit (agreement agreed) frame.now))) }
{
    match read_block(frame, limit, agreed) {
        Ok(block) => writeln!(out, "read 0 {}", BlockText(block)),
        Err(fault) => writeln!(out, "read {}", CauseText(fault.cause())),
    }
}

/// The card's frame size.
fn card_size(fsci: u8) -> usize
    requires { fsci ≤ greatest_code }
    ensures { result ≡ size_of fsci }
{
    size_of_code(fsci).unwrap()
}

/// Appends what an ATS says: the card's frame size, TA, waiting time, guard time, TC and the historical bytes.
fn push_ats(out: &mut String, ats: Ats<'_>) -> Result<(), AllocError>
    requires { ValidAts (said_by ats) }
    ensures { OnOk result (string_bytes out.new ≡ string_bytes out.old ++ ats_line (good (said_by ats.entry))) }
{
    writeln!(
        out,
        "ats 0 {} {} {} {} {} {}",
        card_size(ats.fsci),
        Hex(&[ats.ta]),
        ats.fwi,
        ats.sfgi,
        Hex(&[ats.tc]),
        Hex(ats.historical)
    )
}

/// Appends what a frame is heard as, at a reader of this frame size.
fn push_hearing(out: &mut String, fsd: usize, frame: &[u8]) -> Result<(), AllocError>
    ensures { OnOk result (string_bytes out.new ≡ string_bytes out.old ++ line_text (Some (hearing fsd frame.now))) }
{
    match hear_ats(frame, fsd) {
        Ok(ats) => push_ats(out, ats),
        Err(fault) => writeln!(out, "ats {}", CauseText(fault.cause())),
    }
}

/// Appends the answer to a job, a line.
pub fn push_answer(out: &mut String, job: &Job) -> Result<(), AllocError>
    ensures { OnOk result (string_bytes out.new ≡ string_bytes out.old ++ line_text (Some (task_seen job.now))) }
{
    match job {
        Job::Seal { body } => push_sealing(out, body),
        Job::Read {
            limit,
            agreed,
            frame,
        } => push_reading(out, *limit, *agreed, frame),
        Job::Ats { fsd, frame } => push_hearing(out, *fsd, frame),
    }
}
