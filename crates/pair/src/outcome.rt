//! What a call on a pair answers.
ghost use Rattle.std.specs.Prelude.{◌≡◌, ℕ, ◌≤◌, List, [], length, IfOk};
ghost use Rattle.buffers.specs.Rooms.{answer_room};
ghost use Rattle.protocol.specs.Reader.{outcome_number};
ghost use Rattle.stages.specs.Outcomes.{answer_seen as told_by};
ghost use Rattle.activation.specs.Views.{said_by};
ghost use Rattle.pair.specs.Answers.{woken_seen, answer_seen, size_in, Short};

use activation::Ats;
use buffers::AnswerStore;
use frames::Refusal;

/// What a card's ATS says.
#[derive(Drop)]
pub struct Woken {
    pub fsci: u8,
    pub ta: u8,
    pub fwi: u8,
    pub sfgi: u8,
    pub tc: u8,
    pub historical: AnswerStore,
}

/// What the reader's call comes to.
pub type Outcome = stages::Outcome<Woken>;

/// What a call answers, and whether it brought a command to the application.
#[derive(Drop)]
pub struct Answer {
    pub outcome: Result<Outcome, Refusal>,
    pub given: bool,
}

/// A copy of what an ATS says.
fn copied(ats: Ats<'_>) -> Woken
    requires { length (said_by ats).historical ≤ answer_room }
    ensures { woken_seen result ≡ said_by ats.entry }
{
    let mut historical = AnswerStore::new();
    historical.append(ats.historical).unwrap();
    Woken {
        fsci: ats.fsci,
        ta: ats.ta,
        fwi: ats.fwi,
        sfgi: ats.sfgi,
        tc: ats.tc,
        historical,
    }
}

/// What the reader's call answers, kept.
pub(crate) fn kept(told: Result<stages::Outcome<Ats<'_>>, Refusal>) -> Result<Outcome, Refusal>
    requires { Short (told_by said_by told []).outcome }
    ensures seen { (buffer : List ℕ) → answer_seen result buffer ≡ (told_by said_by told.entry buffer).outcome }
    ensures size { (buffer : List ℕ) → size_in result ≡ (told_by said_by told.entry buffer).size }
{
    Ok(told?.map(copied))
}

impl Answer {
    /// How many bytes stand at the front of the buffer: a frame written or an answer fetched.
    pub fn size(&self) -> usize
        ensures { result ≡ size_in self.now.outcome }
    {
        match &self.outcome {
            Ok(outcome) => outcome.size(),
            Err(_) => 0,
        }
    }

    /// The number that stands for what the call answered: 0 where the session goes on.
    pub fn number(&self) -> u8
        ensures { (buffer : List ℕ) → result ≡ outcome_number (answer_seen self.now.outcome buffer) }
    {
        stages::number_of(&self.outcome)
    }
}
