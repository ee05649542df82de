//! RATS and deselect as a session writes them, and what it hears in return.
ghost use Rattle.std.specs.Prelude.{◌≡◌, true, IfOk};
ghost use Rattle.activation.specs.Laws.{ValidAts};
ghost use Rattle.activation.specs.Views.{said_by};
ghost use Rattle.exchange.specs.Listening.{event_seen};
ghost use Rattle.frames.specs.Blocks.{frame_of, deselect};
ghost use Rattle.frames.specs.Check.{seal};
ghost use Rattle.frames.specs.Sizes.{size_of};
ghost use Rattle.frames.specs.Views.{cid_seen, agreement};
ghost use Rattle.frames.specs.Writing.{cid_in_range};
ghost use Rattle.activation.specs.Rats.{rats_of};
ghost use Rattle.protocol.specs.Reader.{ats_in, is_deselect, read_as};
ghost use Rattle.stages.specs.Requests.{Writes, ats_seen};
ghost use Rattle.stages.specs.Setups.{setup_seen};

use super::setup::Setup;
use activation::{Ats, hear_ats, write_rats};
use exchange::{Sent, SessionFault, listen};
use frames::{Agreed, Block, CardNumber, FrameFault, Refusal, write_block};

/// For how many carrier cycles a reader listens after RATS and after deselect.
const ACTIVATION_TIME: u32 = 65_536;

/// A frame of this length is out, and is answered within the time of activation.
fn activating(len: usize) -> Sent
    ensures { result ≡ record { len = len; cycles = 65536 } }
{
    Sent {
        len,
        cycles: ACTIVATION_TIME,
    }
}

/// Writes RATS.
pub fn write_request(setup: Setup, out: &mut [u8]) -> Result<Sent, Refusal>
    ensures { Writes (seal (rats_of (setup_seen setup).fsdi (setup_seen setup).cid)) result out.old out.new }
{
    Ok(activating(write_rats(setup.rats(), out)?))
}

/// Writes deselect, with this card number or without.
pub fn write_deselect(card: Option<CardNumber>, out: &mut [u8]) -> Result<Sent, Refusal>
    requires { cid_in_range (cid_seen card) ≡ true }
    ensures { Writes (frame_of (deselect (cid_seen card))) result out.old out.new }
{
    Ok(activating(write_block(Block::deselecting(card), out)?))
}

/// What was heard as an ATS; nothing heard is silence.
pub fn hear_answer<'a>(bytes: Option<&'a [u8]>, setup: Setup) -> Result<Ats<'a>, SessionFault>
    ensures read { ats_seen result ≡ ats_in (size_of (setup_seen setup).fsdi) (event_seen bytes.entry) }
    ensures valid { IfOk result (λ a. ValidAts (said_by a)) }
{
    let frame = bytes.ok_or(FrameFault::Silence)?;
    Ok(hear_ats(frame, setup.fsd())?)
}

/// What was heard is a deselect of the card.
pub fn is_deselect(bytes: Option<&[u8]>, fsd: usize, agreed: Agreed) -> bool
    ensures { result ≡ is_deselect (read_as fsd (agreement agreed) (event_seen bytes.entry)) }
{
    matches!(listen(bytes, fsd, agreed), Ok(Block::Deselect { .. }))
}
