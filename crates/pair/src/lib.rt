//! A reader and a card over a field that loses and spoils frames.
#![tactic(auto)]

mod air;
mod call;
mod delivery;
mod hearing;
mod laws;
mod outcome;
mod pair;
mod recorded;

pub use call::{Call, Fate, NOISE, Step};
pub use laws::{acts_are_runs, starts_a_run};
pub use outcome::{Answer, Outcome, Woken};
pub use pair::Pair;
pub use recorded::Record;
