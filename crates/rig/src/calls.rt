//! The calls, on numbers and byte buffers.
ghost use Rattle.std.specs.Prelude.{◌≡◌, length};
ghost use Rattle.std.specs.Option.{option_map};
ghost use Rattle.frames.specs.Check.{seal};
ghost use Rattle.frames.specs.Sealing.{sealing, written};
ghost use Rattle.frames.specs.Views.{agreement};
ghost use Rattle.rig.specs.Reports.{agreed_by, read_by, read_number, reported, seal_number, seal_length};

use super::report::{Report, of_block, of_cause};
use frames::{Agreed, read_block};

/// The numbers that both calls answer are those of the header: C has no `Result`.
///
/// Seals `body` into `out`, and gives the frame's length.
pub fn hurimpas_seal(body: &[u8], out: &mut [u8], n: &mut usize) -> u8
    ensures number { result ≡ seal_number (sealing body.now (length out.old)) }
    ensures bytes { out.new ≡ written (sealing body.now (length out.old)) (seal body.now) out.old }
    ensures long { n.new ≡ seal_length (sealing body.now (length out.old)) n.old }
{
    match frames::seal(body, out) {
        Ok(length) => {
            *n = length;
            0
        }
        Err(refusal) => refusal.number(),
    }
}

/// An agreement on card numbers, by the number that C hands in.
fn agreed_by(n: u8) -> Option<Agreed>
    ensures { option_map agreement result ≡ agreed_by n }
{
    match n {
        0..=14 => Some(Agreed::Number(n)),
        254 => Some(Agreed::ZeroOrNone),
        255 => Some(Agreed::NoNumber),
        _ => None,
    }
}

/// Reads `frame` as a receiver of frame size `limit` does, and reports what it is.
pub fn hurimpas_read(frame: &[u8], limit: usize, agreed: u8, report: &mut Report) -> u8
    ensures number { result ≡ read_number (read_by limit agreed frame.now) }
    ensures report { report.new ≡ reported (read_by limit agreed frame.now) report.old }
{
    let Some(agreed) = agreed_by(agreed) else {
        return 1;
    };
    match read_block(frame, limit, agreed) {
        Ok(block) => {
            *report = of_block(block);
            0
        }
        Err(fault) => {
            let cause = fault.cause();
            *report = of_cause(cause);
            cause.number
        }
    }
}
