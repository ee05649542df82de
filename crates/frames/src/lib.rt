//! Frames and blocks of ISO/IEC 14443-4, Type A: the check, the control byte, blocks and their frames.
#![tactic(auto)]

mod block;
mod check;
mod control;
mod fault;
mod frame;
mod kind;
mod laws;
mod reading;
mod refusal;
mod writing;

pub use block::{Agreed, Block, CardNumber, information_place};
pub use fault::{BlockFault, Cause, FrameFault, Layer};
pub use frame::{GREATEST_FRAME, LONGEST_BODY, seal, unseal};
pub use laws::{blocks_are_exact, blocks_hold, examples_hold, frames_hold};
pub use reading::read_block;
pub use refusal::Refusal;
pub use writing::write_block;
