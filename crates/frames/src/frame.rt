//! Frames: a body of one byte or more, and its check.
ghost use Rattle.std.specs.Prelude.{◌≡◌, ◌+◌, ◌≤◌, length, take};
ghost use Rattle.buffers.specs.Over.{over};
ghost use Rattle.frames.specs.Check.{seal, checks, open_frame};
ghost use Rattle.frames.specs.Sealing.{sealing, written};
ghost use Rattle.frames.specs.Views.{opened_as};

use super::check::check_register;
use super::fault::FrameFault;
use super::refusal::Refusal;
use buffers::put;

/// The greatest frame, and so the least buffer that every frame fits.
pub const GREATEST_FRAME: usize = 256;

/// The check's bytes.
pub const CHECK: usize = 2;

/// The longest body.
pub const LONGEST_BODY: usize = GREATEST_FRAME - CHECK;

/// Puts the check of the first `n` bytes behind them.
pub fn close(out: &mut [u8], n: usize)
    requires { n + 2 ≤ length out.old }
    ensures { out.new ≡ over (seal (take n out.old)) out.old }
{
    let check = check_register(&out[0..n]).to_le_bytes();
    put(out, n, &check);
}

/// Writes the frame of `body` to the front of `out`, and answers its length.
pub fn seal(body: &[u8], out: &mut [u8]) -> Result<usize, Refusal>
    ensures value { result ≡ sealing body.now (length out.old) }
    ensures bytes { out.new ≡ written result (seal body.now) out.old }
{
    if out.len() < GREATEST_FRAME {
        return Err(Refusal::Buffer);
    }
    if body.is_empty() || body.len() > LONGEST_BODY {
        return Err(Refusal::Length);
    }
    put(out, 0, body);
    close(out, body.len());
    Ok(body.len() + CHECK)
}

/// The last two bytes of `frame` are the check of those before.
fn checked(frame: &[u8]) -> bool
    requires { 3 ≤ length frame.now }
    ensures { result ≡ checks frame.now }
{
    let n = frame.len() - CHECK;
    let [low, high] = check_register(&frame[0..n]).to_le_bytes();
    frame[n] == low && frame[n + 1] == high
}

/// The body of a frame that is at most `limit` long, as a part of it.
pub fn unseal(frame: &[u8], limit: usize) -> Result<&[u8], FrameFault>
    ensures { opened_as result ≡ open_frame limit frame.now }
{
    if frame.len() < 1 + CHECK {
        return Err(FrameFault::Short);
    }
    if frame.len() > limit {
        return Err(FrameFault::Long);
    }
    if !checked(frame) {
        return Err(FrameFault::Check);
    }
    Ok(&frame[0..frame.len() - CHECK])
}
