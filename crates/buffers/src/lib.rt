//! Buffers: bytes put into the caller's memory, and stores of a fixed size that gather bytes.
#![tactic(auto)]

ghost use Rattle.std.specs.Prelude.{◌≡◌, ◌+◌, ◌≤◌, length};
ghost use Rattle.buffers.specs.Over.{over, over_at};

mod store;

pub use store::{ANSWER_ROOM, AnswerStore, COMMAND_ROOM, CommandStore, Full, Store};

/// Copies `bytes` to the front of `part`, and changes no other byte of it.
pub fn copy(part: &mut [u8], bytes: &[u8])
    requires { length bytes.now ≤ length part.old }
    ensures { part.new ≡ over bytes.now part.old }
{
    part[0..bytes.len()].copy_from_slice(bytes);
}

/// Puts `bytes` into `out` at the offset `at`, and changes no other byte.
pub fn put(out: &mut [u8], at: usize, bytes: &[u8])
    requires { at + length bytes.now ≤ length out.old }
    ensures { out.new ≡ over_at at bytes.now out.old }
{
    copy(&mut out[at..], bytes);
}
