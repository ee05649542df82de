//! Listening for a block: what was heard after a frame, or silence.
ghost use Rattle.std.specs.Prelude.{◌≡◌, IfOk};
ghost use Rattle.frames.specs.Blocks.{ValidBlock};
ghost use Rattle.frames.specs.Views.{agreement, block_seen};
ghost use Rattle.protocol.specs.Reader.{read_as};
ghost use Rattle.exchange.specs.Listening.{event_seen, reading_seen};

use super::fault::SessionFault;
use frames::{Agreed, Block, FrameFault, read_block};

/// What was heard as a block, at a reader of this frame size.
pub fn listen<'a>(
    heard: Option<&'a [u8]>,
    fsd: usize,
    agreed: Agreed,
) -> Result<Block<'a>, SessionFault>
    ensures value { reading_seen result ≡ read_as fsd (agreement agreed) (event_seen heard.entry) }
    ensures valid { IfOk result (λ b. ValidBlock (block_seen b)) }
{
    let frame = heard.ok_or(FrameFault::Silence)?;
    let block = read_block(frame, fsd, agreed)?;
    Ok(block)
}
