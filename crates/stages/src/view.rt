//! What a session tells at any stage.
ghost use Rattle.std.specs.Prelude.{◌≡◌};

use exchange::{Exchange, Link, Says};

/// What is held of the card, none where none was woken, and what the reader says of its command.
#[derive(Clone, Copy, Debug, PartialEq, Eq)]
pub struct View {
    pub link: Option<Link>,
    pub says: Says,
}

impl View {
    ghost use Rattle.exchange.specs.Exchanges.{exchange_seen};
    ghost use Rattle.exchange.specs.Links.{link_seen};
    ghost use Rattle.exchange.specs.Views.{says_seen};
    ghost use Rattle.protocol.specs.Reader.{blank_link, say_of, none as nothing};
    ghost use Rattle.stages.specs.Stages.{link_held};

    /// Before a card is woken.
    pub(crate) fn blank() -> View
        ensures link { link_held result.link ≡ blank_link }
        ensures says { says_seen result.says ≡ nothing }
    {
        View {
            link: None,
            says: Says::Nothing,
        }
    }

    /// With this exchange as the latest.
    pub(crate) fn of(exchange: &Exchange) -> View
        ensures link { link_held result.link ≡ link_seen exchange.now.link }
        ensures says { says_seen result.says ≡ say_of (exchange_seen exchange.now).progress (exchange_seen exchange.now) }
    {
        View {
            link: Some(exchange.link()),
            says: exchange.says(),
        }
    }
}
