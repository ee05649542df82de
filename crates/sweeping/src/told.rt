//! What is told of a call.
ghost use Rattle.std.specs.Prelude.{◌≡◌, ℕ, List};
ghost use Rattle.exchange.specs.Views.{totals_seen};
ghost use Rattle.pair.specs.Answers.{answer_seen};
ghost use Rattle.sweeping.specs.Trails.{written, frames_in, writes, told_of, onwards};

use exchange::Totals;
use pair::{Answer, Outcome};

/// The number of the outcome, the frames that it counts, and whether the exchange goes on. (No Option: a row reads both numbers also of an
/// exchange that is cut while it goes on.)
#[derive(Clone, Copy, Debug, PartialEq, Eq)]
pub struct Told {
    pub result: u8,
    pub frames: usize,
    pub goes_on: bool,
}

/// How often the application was given a command.
#[derive(Clone, Copy, Debug, PartialEq, Eq)]
pub enum Times {
    Never,
    Once,
    Oftener,
}

/// The frames of an exchange.
fn written(totals: Totals) -> usize
    ensures { result ≡ written (totals_seen totals) }
{
    totals.fresh as usize + totals.repeats as usize + totals.waits as usize
}

fn frames_in(answer: &Answer) -> usize
    ensures { (buffer : List ℕ) → result ≡ frames_in (answer_seen answer.now.outcome buffer) }
{
    match &answer.outcome {
        Ok(Outcome::Answered { report, .. } | Outcome::Over { report, .. }) => written(
            report.totals,
        ),
        _ => 0,
    }
}

fn goes_on(answer: &Answer) -> bool
    ensures { (buffer : List ℕ) → result ≡ writes (answer_seen answer.now.outcome buffer) }
{
    matches!(&answer.outcome, Ok(Outcome::Wrote(_)))
}

impl From<&Answer> for Told {
    ghost from_gives = { λ answer told. (buffer : List ℕ) → told ≡ told_of (answer_seen answer.now.outcome buffer) };

    fn from(answer: &Answer) -> Told {
        Told {
            result: answer.number(),
            frames: frames_in(answer),
            goes_on: goes_on(answer),
        }
    }
}

impl Times {
    /// Once more, if a command was given.
    pub fn after(self, given: bool) -> Times
        ensures { result ≡ onwards self given }
    {
        if !given {
            return self;
        }
        match self {
            Times::Never => Times::Once,
            Times::Once | Times::Oftener => Times::Oftener,
        }
    }
}
