//! Scripts for the bench: which line is readable and as what, and what each call prints.
#![tactic(auto)]

mod call;
mod row;
mod setup;

pub use call::{Entry, Order, entry_in, names_calls};
pub use row::{Row, push_names, push_row, says_word, write_names, write_row};
pub use setup::{App, Values, names_setup, values_in};
