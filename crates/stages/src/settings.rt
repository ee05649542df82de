//! What a reader is set to.
ghost use Rattle.std.specs.Prelude.{◌≡◌};
ghost use Rattle.protocol.specs.Settings.{reader_in_range};
ghost use Rattle.stages.specs.Setups.{wished};

use activation::{CARD_NUMBERS, GREATEST_CODE};

/// A fresh frame is repeated at most so often.
const MOST_REPEATS: u8 = 15;

/// The code of the reader's frame size, the number that it gives the card, how often it repeats a fresh frame, and how many
/// waits of an exchange it grants.
#[derive(Clone, Copy, Debug, PartialEq, Eq)]
pub struct Settings {
    pub fsdi: u8,
    pub cid: u8,
    pub repeats: u8,
    pub waits: u8,
}

impl Settings {
    /// Every setting is in its range; each number of waits that a byte holds is.
    pub fn is_valid(self) -> bool
        ensures { result ≡ reader_in_range (wished self) }
    {
        self.fsdi <= GREATEST_CODE && self.cid < CARD_NUMBERS && self.repeats <= MOST_REPEATS
    }
}
