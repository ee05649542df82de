//! The stages of a session. Each is a type of its own, is never copied, and has just the calls that belong to it. Where two
//! hold the same, as Idle and Ended do, their calls differ: a struct over a marker for the stage would be no plainer.
ghost use Rattle.std.specs.Prelude.{◌≡◌};
ghost use Rattle.protocol.specs.Reader.{blank_exchange};
ghost use Rattle.exchange.specs.Exchanges.{exchange_seen};

use super::setup::Setup;
use exchange::{Exchange, Running};
use frames::Cause;

mod calls;
mod deselecting;
mod exchanging;
mod shutting;
mod telling;
mod waking;

pub use calls::{Fetch, Linked, Listen, Stage};
pub use shutting::{Close, Shut};

/// Nothing was asked yet.
#[derive(Drop)]
pub struct Unwoken {
    setup: Setup,
}

/// RATS is out: how often it was repeated, and the last cause.
#[derive(Drop)]
pub struct Asking {
    setup: Setup,
    tries: u8,
    why: Option<Cause>,
}

/// The card has answered with an ATS; no command was begun yet.
#[derive(Drop)]
pub struct Woken {
    setup: Setup,
    exchange: Exchange,
    ghost blank: { exchange_seen exchange ≡ blank_exchange },
}

/// The card has not, as often as RATS was repeated; only close is left.
#[derive(Drop)]
pub struct Failed {
    asking: Asking,
}

/// The session is active, and no exchange is open.
#[derive(Drop)]
pub struct Idle {
    setup: Setup,
    exchange: Exchange,
}

/// An exchange is open.
#[derive(Drop)]
pub struct Busy {
    setup: Setup,
    running: Running,
}

/// An exchange has ended before it was done; only close is left.
#[derive(Drop)]
pub struct Ended {
    setup: Setup,
    exchange: Exchange,
}

/// Deselect is out: the latest exchange, where a card had answered to RATS, and how often deselect was repeated.
#[derive(Drop)]
pub struct Closing {
    setup: Setup,
    latest: Option<Exchange>,
    tries: u8,
}

/// The card is off.
#[derive(Drop)]
pub struct Closed {
    closing: Closing,
}
