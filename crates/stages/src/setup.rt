//! The settings of a session, in their ranges.
ghost use Rattle.std.specs.Prelude.{◌≡◌, ◌<◌, ◌≤◌};
ghost use Rattle.frames.specs.Sizes.{size_of};

use super::settings::Settings;
use activation::{Rats, size_of_code};
use exchange::Limits;
use frames::Refusal;

#[derive(Clone, Copy)]
pub struct Setup {
    fsdi: u8,
    cid: u8,
    repeats: u8,
    waits: u8,
    ghost code: { fsdi ≤ 8 },
    ghost card: { cid < 15 },
    ghost few: { repeats ≤ 15 },
}

impl TryFrom<Settings> for Setup {
    ghost use Rattle.stages.specs.Setups.{SetsUp};

    type Error = Refusal;

    ghost try_from_gives = { SetsUp };

    fn try_from(settings: Settings) -> Result<Setup, Refusal> {
        if !settings.is_valid() {
            return Err(Refusal::Setting);
        }
        Ok(Setup {
            fsdi: settings.fsdi,
            cid: settings.cid,
            repeats: settings.repeats,
            waits: settings.waits,
        })
    }
}

impl Setup {
    ghost use Rattle.stages.specs.Setups.{setup_seen, limits_for, rats_for, all_least};

    /// All settings 0.
    pub fn least() -> Setup
        ensures { setup_seen result ≡ all_least }
    {
        Setup {
            fsdi: 0,
            cid: 0,
            repeats: 0,
            waits: 0,
        }
    }

    /// The number that the reader gives the card.
    pub fn cid(self) -> u8
        ensures { result ≡ (setup_seen self).cid }
    {
        self.cid
    }

    /// How often a fresh frame is repeated.
    pub fn repeats(self) -> u8
        ensures { result ≡ (setup_seen self).repeats }
    {
        self.repeats
    }

    /// The reader's frame size.
    pub fn fsd(self) -> usize
        ensures { result ≡ size_of (setup_seen self).fsdi }
    {
        size_of_code(self.fsdi).unwrap_or(0)
    }

    /// What holds in an exchange.
    pub fn limits(self) -> Limits
        ensures { result ≡ limits_for (setup_seen self) }
    {
        Limits {
            fsd: self.fsd(),
            repeats: self.repeats,
            waits: self.waits,
        }
    }

    /// The RATS that the reader writes.
    pub fn rats(self) -> Rats
        ensures { result ≡ rats_for (setup_seen self) }
    {
        Rats {
            fsdi: self.fsdi,
            cid: self.cid,
        }
    }
}
