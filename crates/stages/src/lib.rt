//! The stages of a reader's session by ISO/IEC 14443-4, each a type with just the calls that belong to it.
#![tactic(auto)]

mod next;
mod outcome;
mod requests;
mod settings;
mod setup;
mod stage;
mod view;

pub use next::{AfterBlock, AfterDeselect, AfterRats, Heard};
pub use outcome::{Outcome, number_of};
pub use settings::Settings;
pub use stage::{
    Asking, Busy, Close, Closed, Closing, Ended, Failed, Fetch, Idle, Linked, Listen, Shut, Stage,
    Unwoken, Woken,
};
pub use view::View;
