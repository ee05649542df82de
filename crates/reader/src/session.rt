//! A session at any stage, for callers that hold a list of calls. A call that does not belong to the stage is refused, and
//! the stage is kept.
use activation::Ats;
use frames::Refusal;
use stages::{Asking, Busy, Closed, Closing, Ended, Failed, Idle, Outcome, Unwoken, Woken};

mod calls;
mod onward;
mod views;

/// What a call of a session answers.
pub type Answer<'a> = Result<Outcome<Ats<'a>>, Refusal>;

#[derive(Drop)]
pub enum Session {
    Unwoken(Unwoken),
    Asking(Asking),
    Woken(Woken),
    Failed(Failed),
    Idle(Idle),
    Busy(Busy),
    Ended(Ended),
    Closing(Closing),
    Closed(Closed),
}
