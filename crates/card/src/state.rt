//! The stages of a card.
ghost use Rattle.std.specs.Prelude.{◌≡◌, true, length, IsNone, MatchOption};
ghost use Rattle.frames.specs.Check.{open_frame};
ghost use Rattle.frames.specs.Sizes.{size_of, greatest_frame};
ghost use Rattle.protocol.specs.Card.{takes, on_rats, rats_in};
ghost use Rattle.protocol.specs.Field.{hears_at, sends_at};

use crate::awake::AwakeCard;
use crate::settings::CardSettings;
use crate::taken::{Sends, Taken};
use crate::writing::write_fit;
use activation::{read_rats, write_pps_answer};
use applications::Application;
use frames::{Block, GREATEST_FRAME};

/// Before RATS, awake, and after deselect.
#[derive(Drop)]
pub enum CardState {
    Asleep,
    Awake(AwakeCard),
    Halted,
}

impl CardState {
    ghost use Rattle.card.specs.declared.state.CardState.TheVariants.{Awake};
    ghost use Rattle.card.specs.Fit.{FitCard};
    ghost use Rattle.card.specs.Held.{awake_in, card_of, settings_of, settings_good};
    ghost use Rattle.card.specs.Told.{tells, told_of, reply_for, reply_length, replied};

    /// Every frame at every time.
    pub fn take<A: Application>(
        &mut self,
        settings: &CardSettings,
        application: &mut A,
        frame: &[u8],
    ) -> Taken
        ensures { tells (settings_of settings.now) (card_of self.new) application.new result ≡ told_of (takes A.Application.model (settings_of settings.now) (card_of self.old) application.old frame.now) }
    {
        let taken = match self {
            CardState::Asleep => return self.wake(settings, frame),
            CardState::Awake(card) => card.take(settings, application, frame),
            CardState::Halted => return Taken::alone(None),
        };
        if taken.is_last() {
            *self = CardState::Halted;
        }
        taken
    }

    /// A RATS wakes the card; any other frame leaves it asleep.
    fn wake(&mut self, settings: &CardSettings, frame: &[u8]) -> Taken
        ensures { tells (settings_of settings.now) (card_of self.new) (tt {0}) result ≡ told_of (on_rats (settings_of settings.now) (tt {0}) (rats_in (open_frame (size_of settings.now.fsci) frame.now))) }
    {
        match read_rats(frame, settings.frame_size()) {
            Some(rats) => {
                *self = CardState::Awake(AwakeCard::woken(rats));
                Taken::alone(Some(Sends::Ats))
            }
            None => {
                *self = CardState::Asleep;
                Taken::alone(None)
            }
        }
    }

    /// The card, while it is awake.
    fn awake(&self) -> Option<&AwakeCard>
        ensures { MatchOption result (IsNone (awake_in self.now)) (λ w. self.now ≡ Awake w.now) }
    {
        match self {
            CardState::Awake(card) => Some(card),
            _ => None,
        }
    }

    /// The code of the divisor at which the card listens.
    pub fn listens_at(&self) -> u8
        ensures { result ≡ hears_at (card_of self.now) }
    {
        self.awake().map_or(0, |card| card.dri)
    }

    /// The code of the divisor at which the card sends.
    pub fn sends_at(&self) -> u8
        ensures { result ≡ sends_at (card_of self.now) }
    {
        self.awake().map_or(0, |card| card.dsi)
    }

    /// Writes what the card sends, and answers its length.
    pub fn write_reply(
        &self,
        settings: &CardSettings,
        taken: Taken,
        out: &mut [u8; GREATEST_FRAME],
    ) -> Option<usize>
        requires range { settings_good settings.now ≡ true }
        requires fit { FitCard (card_of self.now) }
        ensures value { result ≡ reply_length (reply_for (settings_of settings.now) (card_of self.now) taken.sends) }
        ensures bytes { out.new ≡ replied (reply_for (settings_of settings.now) (card_of self.now) taken.sends) out.old }

        // A caller that lent a part of a slice learns here that it is whole.
        ensures whole { length out.new ≡ greatest_frame }
    {
        match taken.sends? {
            Sends::Ats => settings.write_ats(out),
            Sends::PpsResponse => {
                let cid = self.awake().map_or(0, |card| card.cid);
                write_pps_answer(cid, out).ok()
            }
            Sends::LastBlock => self.awake()?.write_last(out),
            Sends::Deselect(card) => write_fit(Block::deselecting(card), out),
        }
    }
}
