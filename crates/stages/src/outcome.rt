//! What a call of a session answers.
ghost use Rattle.std.specs.Prelude.{◌≡◌, []};
ghost use Rattle.activation.specs.Ats as ats;
ghost use Rattle.protocol.specs.Reader.{outcome_number};
ghost use Rattle.stages.specs.Outcomes.{outcome_seen, answer_seen, size_told, IfWakes, Maps};

use exchange::{Ending, Report, Sent};
use frames::Refusal;

/// What a call comes to that was not refused; `A` is what is held of an ATS.
#[derive(Clone, Copy, Debug, PartialEq, Eq)]
pub enum Outcome<A> {
    /// a frame stands at the front of the buffer
    Wrote(Sent),
    /// the card is awake
    Wakes(A),
    /// the session is active
    Active,
    /// the exchange is done, with an answer of this length
    Answered { len: usize, report: Report },
    /// the exchange or the waking ended against the reader's will
    Over { ending: Ending, report: Report },
    /// the host gave the exchange up
    Stopped(Report),
    /// the card has answered to deselect
    Off,
    /// it has not, and counts as off
    Unanswered,
    /// so many bytes of an answer stand at the front of the buffer
    Fetched(usize),
}

impl<A> Outcome<A> {
    /// The number that stands for the outcome: 0 where the session goes on.
    pub fn number(&self) -> u8
        ensures { (said : A → ats.Ats) → result ≡ outcome_number (outcome_seen said self.now []) }
    {
        match self {
            Outcome::Wrote(_) => 0,
            Outcome::Wakes(_) => 0,
            Outcome::Active => 0,
            Outcome::Answered { .. } => 100,
            Outcome::Over { ending, .. } => ending.number(),
            Outcome::Stopped(_) => 103,
            Outcome::Off => 101,
            Outcome::Unanswered => 102,
            Outcome::Fetched(_) => 0,
        }
    }

    /// How many bytes stand at the front of the buffer: a frame written or an answer fetched.
    pub fn size(&self) -> usize
        ensures { result ≡ size_told self.now }
    {
        match self {
            Outcome::Wrote(sent) => sent.len,
            Outcome::Fetched(len) => *len,
            _ => 0,
        }
    }

    /// The same outcome, with what `held` makes of the ATS.
    pub fn map<B, F: FnOnce(A) -> B>(self, held: F) -> Outcome<B>
        requires { IfWakes self (F.pre held) }
        ensures { Maps (F.post held) self result }
    {
        match self {
            Outcome::Wrote(sent) => Outcome::Wrote(sent),
            Outcome::Wakes(ats) => Outcome::Wakes(held(ats)),
            Outcome::Active => Outcome::Active,
            Outcome::Answered { len, report } => Outcome::Answered { len, report },
            Outcome::Over { ending, report } => Outcome::Over { ending, report },
            Outcome::Stopped(report) => Outcome::Stopped(report),
            Outcome::Off => Outcome::Off,
            Outcome::Unanswered => Outcome::Unanswered,
            Outcome::Fetched(len) => Outcome::Fetched(len),
        }
    }
}

/// The number that stands for what a call answers, an outcome or a refusal.
pub fn number_of<A>(answer: &Result<Outcome<A>, Refusal>) -> u8
    ensures { (said : A → ats.Ats) → result ≡ outcome_number (answer_seen said answer.now []).outcome }
{
    match answer {
        Ok(outcome) => outcome.number(),
        Err(why) => why.number(),
    }
}
