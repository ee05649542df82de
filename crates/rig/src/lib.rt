//! Sealing and reading on numbers and byte buffers, for rigs in C: `rig_c` exports the two calls.
#![tactic(auto)]

mod calls;
mod report;

pub use calls::{hurimpas_read, hurimpas_seal};
pub use report::Report;
