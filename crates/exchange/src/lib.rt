//! The reader's exchange: a command sent in parts, and the answer gathered.
#![tactic(auto)]

mod exchange;
mod fault;
mod link;
mod listening;
mod progress;
mod report;
mod turn;

pub use exchange::{Exchange, Running};
pub use fault::SessionFault;
pub use link::Link;
pub use listening::listen;
pub use report::{Ending, Report, Says, Totals};
pub use turn::{Limits, Next, Sent, Turn};
