//! What is told of an exchange: what the reader says of its command, the frames written, and why it ended.
ghost use Rattle.std.specs.Prelude.{◌≡◌};
ghost use Rattle.protocol.specs.Reader.{ending_number};
ghost use Rattle.exchange.specs.Views.{ending_seen};

use frames::Cause;

/// What the reader says of its latest command.
#[derive(Clone, Copy, Debug, PartialEq, Eq)]
pub enum Says {
    /// there is none
    Nothing,
    /// it was answered
    Done,
    /// it was given to the application
    Taken,
    /// it was not, and will not be
    NotTaken,
    /// nobody on the reader's side can know
    Doubt,
}

/// The frames of an exchange, by what each was written for.
#[derive(Clone, Copy, Debug, PartialEq, Eq)]
pub struct Totals {
    pub fresh: u32,
    pub repeats: u32,
    pub waits: u32,
}

/// What an exchange leaves to be told.
#[derive(Clone, Copy, Debug, PartialEq, Eq)]
pub struct Report {
    pub says: Says,
    pub totals: Totals,
}

/// Why an exchange, or a waking, ended against the reader's will.
#[derive(Clone, Copy, Debug, PartialEq, Eq)]
pub enum Ending {
    /// the repeats are spent; the last cause, if one came since the last fresh frame
    Spent(Option<Cause>),
    /// a block that breaks the rules
    Broken,
    /// a wait too many
    WaitsSpent,
    /// an answer too long
    AnswerLong,
}

impl Ending {
    /// The number that stands for the ending.
    pub fn number(self) -> u8
        ensures { result ≡ ending_number (ending_seen self) }
    {
        match self {
            Ending::Spent(_) => 6,
            Ending::Broken => 7,
            Ending::WaitsSpent => 8,
            Ending::AnswerLong => 9,
        }
    }
}
