//! RATS, ATS and PPS: the formats by which a reader wakes a card.
#![tactic(auto)]

mod answer;
mod answer_writing;
mod fault;
mod laws;
mod request;
mod selection;
mod sizes;

pub use answer::{Ats, TIMES, ats_of, hear_ats};
pub use answer_writing::write_ats;
pub use fault::ActivationFault;
pub use laws::{
    ats_is_read, formats_are_written, pps_answer_is_read, pps_is_read, rats_is_read,
    waiting_time_15_fails,
};
pub use request::{CARD_NUMBERS, Rats, rats_of, read_rats, write_rats};
pub use selection::{Pps, hear_pps_answer, offered, pps_of, read_pps, write_pps, write_pps_answer};
pub use sizes::{GREATEST_CODE, size_of_code};
