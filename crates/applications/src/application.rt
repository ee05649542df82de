//! The interface between the card and what runs on it.
ghost use Rattle.std.specs.Prelude.{◌≡◌, length};
ghost use Rattle.applications.specs.App.{App, Keeps, longest_answer};
ghost use Rattle.buffers.specs.Over.{over};

use buffers::ANSWER_ROOM;

/// The longest answer of an application: 256 bytes and a status word.
pub const LONGEST_ANSWER: usize = ANSWER_ROOM;

/// How an application answers: it asks for so many waits, each with the multiplier, and then the answer has so many
/// bytes.
#[derive(Clone, Copy, Debug, PartialEq, Eq)]
pub struct Reply {
    pub len: usize,
    pub waits: u8,
    pub multiplier: u8,
}

impl Reply {
    /// Answers at once. With no wait to ask for, the multiplier is the least one.
    pub fn at_once(len: usize) -> Reply
        ensures len { result.len ≡ len }
        ensures waits { result.waits ≡ 0 }
        ensures multiplier { result.multiplier ≡ 1 }
    {
        Reply {
            len,
            waits: 0,
            multiplier: 1,
        }
    }

    /// Answers after one wait.
    pub fn after_one_wait(multiplier: u8, len: usize) -> Reply
        ensures len { result.len ≡ len }
        ensures waits { result.waits ≡ 1 }
        ensures multiplier { result.multiplier ≡ multiplier }
    {
        Reply {
            len,
            waits: 1,
            multiplier,
        }
    }
}

/// An application on a card. Its state and a command fix everything that it does, and it refuses nothing.
pub trait Application {
    ghost model: { App Self };

    /// Takes a command, puts the answer at the front of `answer`, and leaves the bytes behind it as they were.
    fn respond(&mut self, command: &[u8], answer: &mut [u8; LONGEST_ANSWER]) -> Reply
        ensures next { self.new ≡ model.next self.old command.now }
        ensures bytes { answer.new ≡ over (model.answer self.old command.now) answer.old }
        ensures full { length answer.new ≡ longest_answer }
        ensures len { result.len ≡ length (model.answer self.old command.now) }
        ensures waits { result.waits ≡ model.waits self.old command.now }
        ensures multiplier { result.multiplier ≡ model.multiplier self.old command.now };

    ghost keeps: { Keeps model };
}
