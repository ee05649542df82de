//! The calls of `rig` as C knows them. include/hurimpas.h says what a caller owes.
#![tactic(auto)]

ghost use Rattle.std.specs.Prelude.{◌≡◌, length};
ghost use Rattle.frames.specs.Check.{seal};
ghost use Rattle.frames.specs.Sealing.{sealing, written};
ghost use Rattle.rig.specs.Reports.{read_by, read_number, reported, seal_number, seal_length};

use rig::Report;

/// Seals `body` into `out`, and gives the frame's length.
#[unsafe(no_mangle)]
pub extern "C" fn hurimpas_seal(body: &[u8], out: &mut [u8], n: &mut usize) -> u8
    ensures number { result ≡ seal_number (sealing body.now (length out.old)) }
    ensures bytes { out.new ≡ written (sealing body.now (length out.old)) (seal body.now) out.old }
    ensures long { n.new ≡ seal_length (sealing body.now (length out.old)) n.old }
{
    rig::hurimpas_seal(body, out, n)
}

/// Reads `frame` as a receiver of frame size `limit` does, and reports what it is.
#[unsafe(no_mangle)]
pub extern "C" fn hurimpas_read(frame: &[u8], limit: usize, agreed: u8, report: &mut Report) -> u8
    ensures number { result ≡ read_number (read_by limit agreed frame.now) }
    ensures report { report.new ≡ reported (read_by limit agreed frame.now) report.old }
{
    rig::hurimpas_read(frame, limit, agreed, report)
}
