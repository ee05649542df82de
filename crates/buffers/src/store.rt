//! A store of a fixed size that gathers bytes.
ghost use Rattle.std.specs.Prelude.{◌≡◌, ◌+◌, ◌≤◌, [], ◌++◌, length, if◌then◌else◌, is_ok, nat_le};
ghost use Rattle.buffers.specs.Over.{over_at};

use super::put;

/// The longest command.
pub const COMMAND_ROOM: usize = 261;

/// The longest answer.
pub const ANSWER_ROOM: usize = 258;

/// There is no room for the bytes.
#[derive(Clone, Copy, Debug, PartialEq, Eq)]
pub struct Full;

/// Room for `N` bytes, the first of which are gathered.
#[derive(Drop)]
pub struct Store<const N: usize> {
    bytes: [u8; N],
    len: usize,
    ghost within: { len ≤ N },
}

/// A store that gathers a command.
pub type CommandStore = Store<COMMAND_ROOM>;

/// A store that gathers an answer.
pub type AnswerStore = Store<ANSWER_ROOM>;

impl<const N: usize> Store<N> {
    ghost use Rattle.buffers.specs.Stores.{held};

    pub fn new() -> Self
        ensures { held result ≡ [] }
    {
        Store {
            bytes: [0; N],
            len: 0,
        }
    }

    /// The bytes gathered.
    pub fn gathered(&self) -> &[u8]
        ensures { result.now ≡ held self.now }
    {
        &self.bytes[..self.len]
    }

    /// Forgets the bytes gathered.
    pub fn clear(&mut self)
        ensures { held self.new ≡ [] }
    {
        self.len = 0;
    }

    /// Copies `more` behind the bytes gathered, and changes no other byte; what does not fit changes nothing.
    pub fn append(&mut self, more: &[u8]) -> Result<(), Full>
        ensures value { is_ok result ≡ nat_le (length (held self.old) + length more.now) N }
        ensures gathers { held self.new ≡ (if is_ok result then held self.old ++ more.now else held self.old) }
        ensures bytes { self.new.bytes ≡ (if is_ok result then over_at self.old.len more.now self.old.bytes else self.old.bytes) }
    {
        if more.len() > N - self.len {
            return Err(Full);
        }
        put(&mut self.bytes, self.len, more);
        self.len += more.len();
        Ok(())
    }
}
