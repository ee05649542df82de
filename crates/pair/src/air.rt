//! What can be heard of the card.
ghost use Rattle.std.specs.Prelude.{◌≡◌, true, length};
ghost use Rattle.frames.specs.Sizes.{greatest_frame};
ghost use Rattle.pair.specs.Fronts.{fits};

use frames::GREATEST_FRAME;

/// The card's reply to the reader's last frame, if there is one: so many bytes at the front. (No `Store`: the card is handed
/// the whole buffer to write into, and only then is known whether that is to be heard.)
#[derive(Drop)]
pub struct Air {
    pub bytes: [u8; GREATEST_FRAME],
    pub reply: Option<usize>,
    ghost full: { length bytes ≡ greatest_frame },
    ghost within: { fits reply ≡ true },
}

impl Air {
    ghost use Rattle.protocol.specs.Card.{quiet};
    ghost use Rattle.exchange.specs.Listening.{event_seen};
    ghost use Rattle.pair.specs.Airs.{reply_seen, event_in};

    /// There is nothing to hear.
    pub fn new() -> Air
        ensures { reply_seen result ≡ quiet }
    {
        Air {
            bytes: [0; GREATEST_FRAME],
            reply: None,
        }
    }

    /// There is no more reply to hear.
    pub fn hush(&mut self)
        ensures { reply_seen self.new ≡ quiet }
    {
        self.reply = None;
    }

    /// The reply, if there is one.
    pub fn heard(&self) -> Option<&[u8]>
        ensures { event_seen result ≡ event_in (reply_seen self.now) }
    {
        let len = self.reply?;
        Some(&self.bytes[..len])
    }
}
