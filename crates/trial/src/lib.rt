//! Scripts for the bench, played on a pair.
#![tactic(auto)]

mod bench;
mod entry;
mod head;
mod rows;

pub use bench::{card_settings, reader_settings, set_up, wake};
pub use head::{push_output, write_output};
