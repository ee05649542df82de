//! The jobs of `inspect`, read and answered line by line.
#![tactic(auto)]

mod answer;
mod job;
mod lines;
mod printing;
mod words;

pub use lines::{push_output, write_output};
pub use text::text_comes_back;
