//! Writing an ATS, with TA, TB and TC all there.
ghost use Rattle.std.specs.Prelude.{◌≡◌, ◌+◌, ◌≤◌, true, length};
ghost use Rattle.buffers.specs.Over.{over};
ghost use Rattle.frames.specs.Sealing.{written};
ghost use Rattle.frames.specs.Sizes.{longest_body};
ghost use Rattle.activation.specs.Ats.{ats_of};
ghost use Rattle.activation.specs.Views.{said_by};
ghost use Rattle.activation.specs.Writing.{ats_valid, ats_head, ats_writing, ats_frame};

use super::answer::Ats;
use buffers::put;
use frames::{GREATEST_FRAME, LONGEST_BODY, Refusal, seal};

/// TL, T0, TA, TB and TC.
const HEAD: usize = 5;

/// T0 announces TA, TB and TC.
const T0: u8 = 0x70;

/// What stands before the historical bytes.
fn head_of(ats: Ats<'_>) -> [u8; HEAD]
    requires valid { ats_valid (said_by ats) ≡ true }
    requires counted { 5 + length ats.historical.now ≤ longest_body }
    ensures { result ≡ ats_head (said_by ats.entry) }
{
    let tl = HEAD + ats.historical.len();
    [
        tl as u8,
        T0 + ats.fsci,
        ats.ta,
        16 * ats.fwi + ats.sfgi,
        ats.tc,
    ]
}

/// Puts the bytes of an ATS at the front of `out`, and answers how many these are.
fn put_ats(ats: Ats<'_>, out: &mut [u8]) -> usize
    requires valid { ats_valid (said_by ats) ≡ true }
    requires counted { 5 + length ats.historical.now ≤ longest_body }
    requires room { longest_body ≤ length out.old }
    ensures value { result ≡ length (ats_of (said_by ats.entry)) }
    ensures bytes { out.new ≡ over (ats_of (said_by ats.entry)) out.old }
{
    put(out, 0, &head_of(ats));
    put(out, HEAD, ats.historical);
    HEAD + ats.historical.len()
}

/// Writes the frame of an ATS to the front of `out`, and answers its length.
pub fn write_ats(ats: Ats<'_>, out: &mut [u8]) -> Result<usize, Refusal>
    ensures value { result ≡ ats_writing (said_by ats.entry) (length out.old) }
    ensures bytes { out.new ≡ written result (ats_frame (said_by ats.entry)) out.old }
{
    if !ats.is_valid() {
        return Err(Refusal::Setting);
    }
    if out.len() < GREATEST_FRAME {
        return Err(Refusal::Buffer);
    }
    if ats.historical.len() > LONGEST_BODY - HEAD {
        return Err(Refusal::Length);
    }
    let mut body = [0; LONGEST_BODY];
    let tl = put_ats(ats, &mut body);
    seal(&body[0..tl], out)
}
