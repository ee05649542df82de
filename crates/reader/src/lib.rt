//! The reader's end of ISO/IEC 14443-4: a session at any stage, and the stages' own types.
#![tactic(auto)]

mod session;

pub use session::{Answer, Session};
pub use stages::{
    AfterBlock, AfterDeselect, AfterRats, Asking, Busy, Close, Closed, Closing, Ended, Failed,
    Fetch, Idle, Linked, Listen, Outcome, Settings, Shut, Stage, Unwoken, View, Woken, number_of,
};
