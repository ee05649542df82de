//! A pair, made and looked at.
ghost use Rattle.std.specs.Prelude.{◌≡◌};
ghost use Rattle.exchange.specs.Views.{says_seen};
ghost use Rattle.protocol.specs.Reader.{says as says_in};
ghost use Rattle.pair.specs.Made.{Met};
ghost use Rattle.pair.specs.Pairs.{world_seen};

use super::Pair;
use crate::air::Air;
use applications::Application;
use card::{Card, CardSettings};
use exchange::Says;
use frames::Refusal;
use reader::{Session, Stage};
use stages::Settings;

impl<A: Application> Pair<A> {
    /// A reader that has asked nothing and a card that sleeps. Settings out of range are refused, and the application is
    /// handed back.
    pub fn new(
        settings: Settings,
        card: CardSettings,
        application: A,
    ) -> Result<Pair<A>, (A, Refusal)>
        ensures { Met A.Application.model settings card application result }
    {
        let reader = match Session::new(settings) {
            Ok(reader) => reader,
            Err(why) => return Err((application, why)),
        };
        Ok(Pair {
            reader,
            card: Card::new(card, application)?,
            air: Air::new(),
        })
    }

    /// What the reader says of its command.
    pub fn says(&self) -> Says
        ensures { says_seen result ≡ says_in (world_seen self.now).reader }
    {
        self.reader.says()
    }

    /// The application on the card.
    pub fn application(&self) -> &A
        ensures { result.now ≡ (world_seen self.now).state }
    {
        self.card.application()
    }
}
