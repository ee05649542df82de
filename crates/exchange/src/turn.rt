//! What a reader is set to in an exchange, and what each turn of one comes to.
use super::exchange::{Exchange, Running};
use super::report::{Ending, Report};
use frames::Refusal;

/// The reader's frame size, how often it repeats a fresh frame, and how many waits of an exchange it grants.
#[derive(Clone, Copy, Debug, PartialEq, Eq)]
pub struct Limits {
    pub fsd: usize,
    pub repeats: u8,
    pub waits: u8,
}

/// A frame was written: its length, and for how many carrier cycles to listen.
#[derive(Clone, Copy, Debug, PartialEq, Eq)]
pub struct Sent {
    pub len: usize,
    pub cycles: u32,
}

/// What the reader does about what it heard.
#[derive(Clone, Copy, Debug, PartialEq, Eq)]
pub enum Turn {
    /// nothing, for a fault of the host's own
    Refused(Refusal),
    /// it goes on with a frame
    Wrote(Sent),
    /// it is done, with an answer of this length
    Answered { len: usize, report: Report },
    /// it ends against its will
    Over { ending: Ending, report: Report },
}

/// The same, with what becomes of the exchange that was handed over.
#[derive(Drop)]
pub enum Next {
    /// it goes on with a frame
    Wrote {
        running: Running,
        sent: Sent,
    },
    /// it is done, with an answer of this length
    Answered {
        exchange: Exchange,
        len: usize,
        report: Report,
    },
    /// it ends against its will
    Over {
        exchange: Exchange,
        ending: Ending,
        report: Report,
    },
}
