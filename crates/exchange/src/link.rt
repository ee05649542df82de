//! What the reader holds of a card since its ATS.
ghost use Rattle.std.specs.Prelude.{◌≡◌, ◌*◌, ◌^◌, ◌<◌, ◌≤◌, true, if◌then◌else◌};
ghost use Rattle.activation.specs.Views.{said_by};
ghost use Rattle.frames.specs.Blocks.{numbered, without};
ghost use Rattle.frames.specs.Reading.{has};
ghost use Rattle.frames.specs.Sizes.{greatest_frame};
ghost use Rattle.frames.specs.Views.{cid_seen, agreement};
ghost use Rattle.frames.specs.Writing.{cid_in_range};
ghost use Rattle.protocol.specs.Reader.{listening, agreed_of};
ghost use Rattle.protocol.specs.Settings.{room_of};

use activation::{Ats, CARD_NUMBERS, size_of_code};
use frames::{Agreed, CardNumber};

/// The bit of TC by which a card supports card numbers.
const SUPPORTS_NUMBERS: u8 = 0x02;

/// The waiting time of the code 0, in carrier cycles.
const LEAST_TIME: u64 = 4096;

/// The longest time that a reader listens.
const LONGEST_TIME: u64 = 67_108_864;

/// The control byte and the check, which a frame has besides information.
const BARE: usize = 3;

/// The card's frame size, the codes of its waiting time and of the divisors that it offers, the card number in the reader's
/// blocks, and the codes of the divisors in use, from the card and to it.
#[derive(Clone, Copy, Debug, PartialEq, Eq)]
pub struct Link {
    fsc: usize,
    fwi: u8,
    ta: u8,
    card: Option<CardNumber>,
    dsi: u8,
    dri: u8,
    ghost least: { 16 ≤ fsc },
    ghost greatest: { fsc ≤ greatest_frame },
    ghost time: { fwi < 15 },
    ghost number: { cid_in_range (cid_seen card) ≡ true },
}

/// The card number in the reader's blocks, with power level 00, if the card supports card numbers.
fn card_for(tc: u8, number: u8) -> Option<CardNumber>
    requires { number < 15 }
    ensures value { cid_seen result ≡ (if has 0x02 tc then numbered number 0 else without) }
    ensures range { cid_in_range (cid_seen result) ≡ true }
{
    (tc & SUPPORTS_NUMBERS != 0).then_some(CardNumber { number, power: 0 })
}

/// The waiting time of a code, in carrier cycles.
fn waiting_time(fwi: u8) -> u64
    requires { fwi < 15 }
    ensures { result ≡ 4096 * 2 ^ fwi }
{
    LEAST_TIME << fwi
}

impl Link {
    ghost use Rattle.exchange.specs.Links.{link_seen, link_for, link_made};

    /// The link that an ATS gives at divisor 1, for the card of this number; none where a value is reserved.
    pub fn of(ats: Ats<'_>, number: u8) -> Option<Link>
        ensures { link_made result ≡ link_for (said_by ats.entry) number }
    {
        if !ats.is_valid() || number >= CARD_NUMBERS {
            return None;
        }
        Some(Link {
            fsc: size_of_code(ats.fsci)?,
            fwi: ats.fwi,
            ta: ats.ta,
            card: card_for(ats.tc, number),
            dsi: 0,
            dri: 0,
        })
    }

    /// The card number in the reader's blocks.
    pub fn card(self) -> Option<CardNumber>
        ensures { cid_seen result ≡ (link_seen self).cid }
    {
        self.card
    }

    /// The divisors that the card offers, as TA has them.
    pub fn ta(self) -> u8
        ensures { result ≡ (link_seen self).ta }
    {
        self.ta
    }

    /// The code of the divisor in use from the card.
    pub fn dsi(self) -> u8
        ensures { result ≡ (link_seen self).dsi }
    {
        self.dsi
    }

    /// The code of the divisor in use to the card.
    pub fn dri(self) -> u8
        ensures { result ≡ (link_seen self).dri }
    {
        self.dri
    }

    /// Which card numbers the reader takes in the card's blocks.
    pub fn agreed(self) -> Agreed
        ensures { agreement result ≡ agreed_of (link_seen self).cid }
    {
        self.card
            .map_or(Agreed::NoNumber, |card| Agreed::Number(card.number))
    }

    /// How much information a block to the card carries at most.
    pub fn room(self) -> usize
        ensures { result ≡ room_of (link_seen self).fsc (link_seen self).cid }
    {
        self.fsc - BARE - usize::from(self.card.is_some())
    }

    /// For how many carrier cycles to listen while a wait of this multiplier holds, 0 being none, which counts as 1.
    pub fn listening(self, stretch: u8) -> u32
        ensures { result ≡ listening (link_seen self) stretch }
    {
        let cycles = waiting_time(self.fwi) * u64::from(stretch.max(1));
        LONGEST_TIME.min(cycles) as u32
    }
}
