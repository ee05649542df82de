//! The card's end of ISO/IEC 14443-4, Type A, from RATS to deselect, above any application.
#![tactic(auto)]

mod awake;
mod card;
mod last;
mod response;
mod settings;
mod state;
mod taken;
mod writing;

pub use card::Card;
pub use response::Response;
pub use settings::{CardSettings, LONGEST_HISTORICAL};
