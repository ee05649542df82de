//! A card, and its calls.
ghost use Rattle.std.specs.Prelude.{◌≡◌, true, length};
ghost use Rattle.protocol.specs.Field.{hears_at, sends_at};
ghost use Rattle.card.specs.Fit.{FitCard, FitCard-prop};
ghost use Rattle.card.specs.Held.{card_of, settings_good};

use crate::response::Response;
use crate::settings::CardSettings;
use crate::state::CardState;
use applications::Application;
use frames::Refusal;

/// An application, the card's settings, and its stage.
#[derive(Drop)]
pub struct Card<A> {
    application: A,
    settings: CardSettings,
    state: CardState,
    ghost range: { settings_good settings ≡ true },
    ghost fit: { FitCard (card_of state) } by { FitCard-prop (card_of state) },
}

impl<A: Application> Card<A> {
    ghost use Rattle.card.specs.Calls.{Built, move_at, card_heard, state_heard, hearing, buffer_heard};

    /// A card that sleeps. Settings out of range are refused, and the application is handed back.
    pub fn new(settings: CardSettings, application: A) -> Result<Card<A>, (A, Refusal)>
        ensures { Built settings application result }
    {
        if !settings.is_valid() {
            return Err((application, Refusal::Setting));
        }
        Ok(Card {
            application,
            settings,
            state: CardState::Asleep,
        })
    }

    /// Takes a frame as heard, whatever it is. An answer is written to the front of `out`.
    pub fn hear(&mut self, frame: &[u8], out: &mut [u8]) -> Result<Response, Refusal>
        ensures value { result ≡ hearing (move_at A.Application.model self.old frame.now) (length out.old) }
        ensures card { card_of self.new.state ≡ card_heard (move_at A.Application.model self.old frame.now) (length out.old) (card_of self.old.state) }
        ensures application { self.new.application ≡ state_heard (move_at A.Application.model self.old frame.now) (length out.old) self.old.application }
        ensures settings { self.new.settings ≡ self.old.settings }
        ensures bytes { out.new ≡ buffer_heard (move_at A.Application.model self.old frame.now) (length out.old) out.old }
    {
        let Some(out) = out.first_chunk_mut() else {
            return Err(Refusal::Buffer);
        };
        let taken = self
            .state
            .take(&self.settings, &mut self.application, frame);
        let len = self.state.write_reply(&self.settings, taken, out);
        Ok(Response {
            len,
            given: taken.given,
        })
    }

    /// The code of the divisor at which the card listens.
    pub fn listens_at(&self) -> u8
        ensures { result ≡ hears_at (card_of self.now.state) }
    {
        self.state.listens_at()
    }

    /// The code of the divisor at which the card sends.
    pub fn sends_at(&self) -> u8
        ensures { result ≡ sends_at (card_of self.now.state) }
    {
        self.state.sends_at()
    }

    pub fn application(&self) -> &A
        ensures { result.now ≡ self.now.application }
    {
        &self.application
    }

    pub fn into_application(self) -> A
        ensures { result ≡ self.application }
    {
        self.application
    }
}
