//! What a card does at a frame.
ghost use Rattle.std.specs.Prelude.{◌≡◌, Some, false};
ghost use Rattle.card.specs.Fit.{FitSends, FitSends-prop};

use frames::CardNumber;

/// What the card sends back to a frame.
#[derive(Clone, Copy, Debug, PartialEq, Eq)]
pub enum Sends {
    Ats,
    PpsResponse,
    /// its last block, if there is one
    LastBlock,
    /// the answer to a deselect, its last frame of all
    Deselect(Option<CardNumber>),
}

/// What it sends, if anything, and whether its application was given a command.
#[derive(Clone, Copy, Debug, PartialEq, Eq)]
pub struct Taken {
    pub sends: Option<Sends>,
    pub given: bool,
    ghost fit: { FitSends sends } by { FitSends-prop sends },
}

impl Taken {
    ghost use Rattle.card.specs.Told.{ends};

    /// This is sent, and no command was given.
    pub fn alone(sends: Option<Sends>) -> Taken
        requires { FitSends sends }
        ensures sends { result.sends ≡ sends }
        ensures given { result.given ≡ false }
    {
        Taken {
            sends,
            given: false,
        }
    }

    /// Behind it the card is silent for good.
    pub fn is_last(&self) -> bool
        ensures { result ≡ ends self.now.sends }
    {
        matches!(self.sends, Some(Sends::Deselect(_)))
    }
}
