//! PPS, the selection of protocol and parameters: the reader chooses a divisor for each direction.
ghost use Rattle.std.specs.Prelude.{◌≡◌, ◌+◌, ◌≤◌, length, IfSome, ◌==◌};
ghost use Rattle.frames.specs.Sealing.{written};
ghost use Rattle.activation.specs.Pps.{read_pps, offers, offered};
ghost use Rattle.activation.specs.Heard.{hear_pps, hear_pps_answer};
ghost use Rattle.activation.specs.Views.{pps_seen, pps_answer_seen};
ghost use Rattle.activation.specs.Ranges.{PpsFor};
ghost use Rattle.activation.specs.Writing.{pps_valid, pps_writing, pps_frame, pps_answer_writing, pps_answer_frame};

use super::fault::ActivationFault;
use super::request::CARD_NUMBERS;
use frames::{Refusal, seal, unseal};

/// A PPS and its response begin with this and the card number.
const START: u8 = 0xD0;

/// The second byte: the third has the codes.
const CODES_FOLLOW: u8 = 0x11;

/// The codes of the divisors 1, 2, 4 and 8 are below this.
const RATES: u8 = 4;

/// TA's bits: divisor 2 from the card, divisor 2 to it, and only the same for both.
const FROM_CARD: u8 = 0x10;

const TO_CARD: u8 = 0x01;

const SAME: u8 = 0x80;

/// The card's number, and the codes of the divisors from the card and to it.
#[derive(Clone, Copy, Debug, PartialEq, Eq)]
pub struct Pps {
    pub cid: u8,
    pub dsi: u8,
    pub dri: u8,
}

impl Pps {
    /// The number is not reserved, and the codes are those of divisors.
    fn is_valid(self) -> bool
        ensures { result ≡ pps_valid self }
    {
        self.cid < CARD_NUMBERS && self.dsi < RATES && self.dri < RATES
    }
}

/// A byte begins a PPS, or the response to it, for the card of this number.
fn begins(start: u8, cid: u8) -> bool
    ensures { result ≡ (start == 0xD0 + cid) }
{
    u16::from(start) == u16::from(START) + u16::from(cid)
}

/// A body as a PPS for the card of this number.
pub fn pps_of(body: &[u8], cid: u8) -> Option<Pps>
    ensures read { pps_seen result ≡ read_pps cid body.now }
    ensures valid { IfSome result (PpsFor cid) }
{
    match body {
        [start, CODES_FOLLOW, codes] if begins(*start, cid) && *codes < RATES * RATES => Some(
            Pps {
                cid,
                dsi: codes / RATES,
                dri: codes % RATES,
            },
        ),
        _ => None,
    }
}

/// A frame as a PPS, at the card of this frame size and number.
pub fn read_pps(frame: &[u8], limit: usize, cid: u8) -> Option<Pps>
    ensures read { pps_seen result ≡ hear_pps limit cid frame.now }
    ensures valid { IfSome result (PpsFor cid) }
{
    pps_of(unseal(frame, limit).ok()?, cid)
}

/// Writes the frame of a PPS to the front of `out`, and answers its length.
pub fn write_pps(pps: Pps, out: &mut [u8]) -> Result<usize, Refusal>
    ensures value { result ≡ pps_writing pps (length out.old) }
    ensures bytes { out.new ≡ written result (pps_frame pps) out.old }
{
    if !pps.is_valid() {
        return Err(Refusal::Setting);
    }
    seal(
        &[START + pps.cid, CODES_FOLLOW, RATES * pps.dsi + pps.dri],
        out,
    )
}

/// Writes the frame of the response to a PPS to the front of `out`, and answers its length.
pub fn write_pps_answer(cid: u8, out: &mut [u8]) -> Result<usize, Refusal>
    ensures value { result ≡ pps_answer_writing cid (length out.old) }
    ensures bytes { out.new ≡ written result (pps_answer_frame cid) out.old }
{
    if cid >= CARD_NUMBERS {
        return Err(Refusal::Setting);
    }
    seal(&[START + cid], out)
}

/// A frame as the response to a PPS, at a reader of this frame size.
pub fn hear_pps_answer(frame: &[u8], fsd: usize, cid: u8) -> Result<(), ActivationFault>
    ensures { pps_answer_seen result ≡ hear_pps_answer fsd cid frame.now }
{
    match unseal(frame, fsd)? {
        [start] if begins(*start, cid) => Ok(()),
        _ => Err(ActivationFault::Response),
    }
}

/// TA offers the divisor of this code in the direction whose lowest bit has this weight.
fn offers(ta: u8, weight: u8, code: u8) -> bool
    requires { weight ≤ 63 }
    ensures { result ≡ offers ta weight code }
{
    match code {
        0 => true,
        1 => ta & weight != 0,
        2 => ta & (2 * weight) != 0,
        3 => ta & (4 * weight) != 0,
        _ => false,
    }
}

/// TA offers this pair of codes, from the card and to it.
pub fn offered(ta: u8, dsi: u8, dri: u8) -> bool
    ensures { result ≡ offered ta dsi dri }
{
    offers(ta, FROM_CARD, dsi) && offers(ta, TO_CARD, dri) && (ta & SAME == 0 || dsi == dri)
}
