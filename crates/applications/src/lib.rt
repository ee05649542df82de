//! What runs on a card above the protocol: the interface, and two applications.
#![tactic(auto)]

mod answer;
mod application;
mod command;
mod laws;
mod metre;
mod status;
mod yarn;

pub use application::{Application, LONGEST_ANSWER, Reply};
pub use laws::{metre_laws_hold, yarn_laws_hold};
pub use metre::Metre;
pub use status::StatusWord;
pub use yarn::{RECORD_SIZE, Yarn};
