//! Writing what can be written.
ghost use Rattle.std.specs.Prelude.{◌≡◌, length, Some};
ghost use Rattle.buffers.specs.Over.{over};
ghost use Rattle.frames.specs.Blocks.{frame_of};
ghost use Rattle.frames.specs.Views.{block_seen};
ghost use Rattle.card.specs.Fit.{FitBlock};

use frames::{Block, GREATEST_FRAME, write_block};

/// Writes the frame of a block that can be written, and answers its length.
pub fn write_fit(block: Block<'_>, out: &mut [u8; GREATEST_FRAME]) -> Option<usize>
    requires { FitBlock (block_seen block) }
    ensures value { result ≡ Some (length (frame_of (block_seen block.entry))) }
    ensures bytes { out.new ≡ over (frame_of (block_seen block.entry)) out.old }
{
    write_block(block, out).ok()
}
