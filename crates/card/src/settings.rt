//! What a card is set to.
ghost use Rattle.std.specs.Prelude.{◌≡◌, ◌≤◌, true, length, if◌then◌else◌, Some};
ghost use Rattle.activation.specs.Ats.{ats_of};
ghost use Rattle.activation.specs.Views.{said_by};
ghost use Rattle.buffers.specs.Over.{over};
ghost use Rattle.frames.specs.Check.{seal};
ghost use Rattle.frames.specs.Sizes.{size_of};
ghost use Rattle.frames.specs.Views.{agreement};
ghost use Rattle.protocol.specs.Card.{card_agreed};
ghost use Rattle.protocol.specs.Settings.{ats_for};
ghost use Rattle.card.specs.Held.{settings_of, settings_good};

use activation::{Ats, size_of_code, write_ats};
use frames::{Agreed, GREATEST_FRAME};

/// The most historical bytes in the card's ATS.
pub const LONGEST_HISTORICAL: usize = 9;

/// The bit of TC by which a card supports card numbers.
const SUPPORTS_NUMBERS: u8 = 0x02;

/// The code of the card's frame size, the codes of its waiting and guard time, the divisors that it offers, whether it
/// supports card numbers, and its historical bytes: the first `historical_len` of `historical`. These are two fields, since a
/// type that holds no more than 9 bytes is narrower: it would take the refusal of a longer count from `Card::new`, and each
/// settings literal would have to unwrap it.
#[derive(Clone, Copy, Debug, PartialEq, Eq)]
pub struct CardSettings {
    pub fsci: u8,
    pub fwi: u8,
    pub sfgi: u8,
    pub ta: u8,
    pub supports: bool,
    pub historical: [u8; LONGEST_HISTORICAL],
    pub historical_len: usize,
}

impl CardSettings {
    /// Every setting is in its range.
    pub fn is_valid(&self) -> bool
        ensures { result ≡ settings_good self.now }
    {
        self.historical_len <= LONGEST_HISTORICAL && self.ats().is_valid()
    }

    /// The card's frame size.
    pub(crate) fn frame_size(&self) -> usize
        ensures { result ≡ size_of self.now.fsci }
    {
        size_of_code(self.fsci).unwrap_or(0)
    }

    /// Which blocks a card of this number takes.
    pub(crate) fn agreed(&self, number: u8) -> Agreed
        ensures { agreement result ≡ card_agreed (settings_of self.now) number }
    {
        if !self.supports {
            Agreed::NoNumber
        } else if number == 0 {
            Agreed::ZeroOrNone
        } else {
            Agreed::Number(number)
        }
    }

    /// TC: card numbers are supported or not, node addresses never.
    fn tc(&self) -> u8
        ensures { result ≡ (if self.now.supports then 0x02 else 0x00) }
    {
        if self.supports { SUPPORTS_NUMBERS } else { 0 }
    }

    /// The card's ATS.
    fn ats(&self) -> Ats<'_>
        requires { self.now.historical_len ≤ 9 }
        ensures { said_by result ≡ ats_for (settings_of self.now) }
    {
        Ats {
            fsci: self.fsci,
            ta: self.ta,
            fwi: self.fwi,
            sfgi: self.sfgi,
            tc: self.tc(),
            historical: &self.historical[..self.historical_len],
        }
    }

    /// Writes the card's ATS, and answers the frame's length.
    pub(crate) fn write_ats(&self, out: &mut [u8; GREATEST_FRAME]) -> Option<usize>
        requires { settings_good self.now ≡ true }
        ensures value { result ≡ Some (length (seal (ats_of (ats_for (settings_of self.now))))) }
        ensures bytes { out.new ≡ over (seal (ats_of (ats_for (settings_of self.now)))) out.old }
    {
        write_ats(self.ats(), out).ok()
    }
}
