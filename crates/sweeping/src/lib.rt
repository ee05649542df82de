//! One exchange under every short run of losses, and the table of how each ended.
#![tactic(auto)]

mod laws;
mod line;
mod order;
mod plan;
mod play;
mod reading;
mod row;
mod run;
mod set_up;
mod sweep;
mod told;

pub use laws::{rows_are_runs, rows_are_true};
pub use line::Line;
pub use order::{Order, OrderError};
pub use plan::{Loss, Plan};
pub use reading::read_order;
pub use row::Row;
pub use run::Run;
pub use sweep::Sweep;
pub use told::Times;
