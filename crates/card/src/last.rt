//! What the card owes its reader, and what it sent last.
use frames::CardNumber;

/// What the card still owes: waits, this many with the one that is out, and then the answer; or the answer from this byte
/// on.
#[derive(Clone, Copy, Debug, PartialEq, Eq)]
pub enum Owed {
    Waits { left: u8, multiplier: u8 },
    Rest { from: usize },
}

/// A block, as it was sent. A part of the answer is kept by its place, and the room that its block had.
#[derive(Clone, Copy, Debug, PartialEq, Eq)]
pub enum LastBlock {
    Acknowledged {
        number: bool,
        card: Option<CardNumber>,
    },
    Waiting {
        multiplier: u8,
        card: Option<CardNumber>,
    },
    Part {
        chaining: bool,
        number: bool,
        card: Option<CardNumber>,
        from: usize,
        room: usize,
    },
}
