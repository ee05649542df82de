//! Text, as the programs read and print it: lines, fields, numbers, and bytes as hexadecimal digits.
#![tactic(auto)]

mod error;
mod hex;
mod laws;
mod lines;
mod print;
mod words;

pub use error::ReadError;
pub use hex::{Hex, byte, bytes_in};
pub use laws::text_comes_back;
pub use lines::{BadLine, Lines};
pub use print::{push_bad, push_bytes, push_field, push_line, push_number, push_number_field};
pub use words::{GREATEST_NUMBER, cut, number_in};
