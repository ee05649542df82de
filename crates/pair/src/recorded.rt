//! What is kept of a call.
ghost use Rattle.std.specs.Prelude.{◌≡◌, ◌≤◌, take, length};
ghost use Rattle.buffers.specs.Rooms.{answer_room};
ghost use Rattle.pair.specs.Answers.{size_in};

use crate::call::Step;
use crate::outcome::Answer;
use crate::pair::Pair;
use applications::Application;
use buffers::ANSWER_ROOM;

/// What a call answered, and the buffer that it was handed: every frame fits into it, and every answer.
#[derive(Drop)]
pub struct Record {
    pub answer: Answer,
    pub bytes: [u8; ANSWER_ROOM],
    ghost whole: { length bytes ≡ answer_room },
    ghost within: { size_in answer.outcome ≤ answer_room },
}

impl Record {
    ghost use Rattle.pair.specs.Records.{step_seen, Kept};

    /// One call on a pair, and what is kept of it.
    pub fn of<A: Application>(pair: &mut Pair<A>, step: Step<'_>) -> Record
        ensures { Kept A.Application.model (step_seen step.entry) pair.old pair.new result }
    {
        let mut bytes = [0; ANSWER_ROOM];
        let answer = pair.call(step.call, step.fate, &mut bytes);
        Record { answer, bytes }
    }

    /// The frame written or the answer fetched.
    pub fn front(&self) -> &[u8]
        ensures { result.now ≡ take (size_in self.now.answer.outcome) self.now.bytes }
    {
        &self.bytes[..self.answer.size()]
    }
}
