//! One entry of a script, as a step of a pair.
ghost use Rattle.std.specs.Prelude.{◌≡◌};
ghost use Rattle.pair.specs.Pairs.{deed_seen};
ghost use Rattle.pair.specs.Records.{step_seen};
ghost use Rattle.script.specs.Orders.{order_seen, entry_seen};
ghost use Rattle.trial.specs.Benches.{deed_of, act_of};
ghost use Rattle.trial.specs.Rows.{without_check};

use pair::{Call, Fate, NOISE, Step};
use script::{Entry, Order};

fn order_call<'a>(order: &'a Order) -> Call<'a>
    ensures { deed_seen result ≡ deed_of (order_seen order.now) }
{
    match order {
        Order::Begin(command) => Call::Begin(command.as_slice()),
        Order::Hear => Call::Hear,
        Order::Mute => Call::Mute,
        Order::Spoil => Call::Noise(&NOISE),
        Order::Close => Call::Close,
    }
}

/// The call of an entry, and the fate of the frame that it writes.
pub fn step_of<'a>(entry: &'a Entry) -> Step<'a>
    ensures { step_seen result ≡ act_of (entry_seen entry.now) }
{
    match entry {
        Entry::Call(order, fate) => Step {
            call: order_call(order),
            fate: *fate,
        },
        Entry::Stop => Step {
            call: Call::GiveUp,
            fate: Fate::Whole,
        },
    }
}

/// A frame without its check.
pub fn without_check(frame: &[u8]) -> &[u8]
    ensures { result.now ≡ without_check frame.now }
{
    &frame[..frame.len().saturating_sub(2)]
}
