//! RATS, the request for an answer to select: the reader tells the card its frame size, and gives it a number.
ghost use Rattle.std.specs.Prelude.{◌≡◌, length, IfSome};
ghost use Rattle.frames.specs.Sealing.{written};
ghost use Rattle.activation.specs.Rats.{read_rats};
ghost use Rattle.activation.specs.Heard.{hear_rats};
ghost use Rattle.activation.specs.Ranges.{RatsInRange};
ghost use Rattle.activation.specs.Views.{rats_seen};
ghost use Rattle.activation.specs.Writing.{rats_valid, rats_writing, rats_frame};

use super::sizes::GREATEST_CODE;
use frames::{Refusal, seal, unseal};

/// The byte that a RATS begins with.
const START: u8 = 0xE0;

/// Card numbers are below this one.
pub const CARD_NUMBERS: u8 = 15;

/// The code of the reader's frame size, and the card's number.
#[derive(Clone, Copy, Debug, PartialEq, Eq)]
pub struct Rats {
    pub fsdi: u8,
    pub cid: u8,
}

impl Rats {
    /// Neither the code nor the number is reserved.
    fn is_valid(self) -> bool
        ensures { result ≡ rats_valid self }
    {
        self.fsdi <= GREATEST_CODE && self.cid < CARD_NUMBERS
    }
}

/// A body as a RATS without reserved values.
pub fn rats_of(body: &[u8]) -> Option<Rats>
    ensures read { rats_seen result ≡ read_rats body.now }
    ensures valid { IfSome result RatsInRange }
{
    let [START, parameter] = body else {
        return None;
    };
    let rats = Rats {
        fsdi: parameter / 16,
        cid: parameter % 16,
    };
    rats.is_valid().then_some(rats)
}

/// A frame as a RATS, at a card of this frame size.
pub fn read_rats(frame: &[u8], limit: usize) -> Option<Rats>
    ensures read { rats_seen result ≡ hear_rats limit frame.now }
    ensures valid { IfSome result RatsInRange }
{
    rats_of(unseal(frame, limit).ok()?)
}

/// Writes the frame of a RATS to the front of `out`, and answers its length.
pub fn write_rats(rats: Rats, out: &mut [u8]) -> Result<usize, Refusal>
    ensures value { result ≡ rats_writing rats (length out.old) }
    ensures bytes { out.new ≡ written result (rats_frame rats) out.old }
{
    if !rats.is_valid() {
        return Err(Refusal::Setting);
    }
    seal(&[START, 16 * rats.fsdi + rats.cid], out)
}
