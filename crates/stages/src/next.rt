//! The stage that a session is at after it has listened.
use super::outcome::Outcome;
use super::stage::{Asking, Busy, Closed, Closing, Ended, Failed, Idle, Woken};
use activation::Ats;
use frames::Refusal;

/// What listening comes to: one of the next stages and the outcome, or the same stage and the refusal.
pub type Heard<'a, N, S> = Result<(N, Outcome<Ats<'a>>), (S, Refusal)>;

/// After RATS.
#[derive(Drop)]
pub enum AfterRats {
    /// RATS is out again
    Asking(Asking),
    Woken(Woken),
    Failed(Failed),
}

/// After a block of an exchange.
#[derive(Drop)]
pub enum AfterBlock {
    /// the exchange goes on
    Busy(Busy),
    Idle(Idle),
    Ended(Ended),
}

/// After deselect.
#[derive(Drop)]
pub enum AfterDeselect {
    /// deselect is out again
    Closing(Closing),
    Closed(Closed),
}
