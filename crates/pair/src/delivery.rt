//! A frame that reaches the card.
ghost use Rattle.std.specs.Prelude.{◌≡◌, if◌then◌else◌, None};
ghost use Rattle.card.specs.Calls.{move_at};
ghost use Rattle.card.specs.Held.{card_of};
ghost use Rattle.card.specs.Told.{was_given};
ghost use Rattle.protocol.specs.Card.{quiet};
ghost use Rattle.pair.specs.Airs.{reply_seen};

use super::air::Air;
use applications::Application;
use card::Card;

/// How much of a reply can be heard.
fn heard(audible: bool, len: Option<usize>) -> Option<usize>
    ensures { result ≡ (if audible then len else None) }
{
    if audible { len } else { None }
}

/// The card takes a frame; its reply can be heard if it is audible. Answers whether the application was given a command.
pub fn deliver<A: Application>(
    card: &mut Card<A>,
    air: &mut Air,
    frame: &[u8],
    audible: bool,
) -> bool
    ensures given { result ≡ was_given (move_at A.Application.model card.old frame.now).command }
    ensures card { card_of card.new.state ≡ (move_at A.Application.model card.old frame.now).card }
    ensures application { card.new.application ≡ (move_at A.Application.model card.old frame.now).state }
    ensures settings { card.new.settings ≡ card.old.settings }
    ensures air { reply_seen air.new ≡ (if audible then (move_at A.Application.model card.old frame.now).answer else quiet) }
{
    match card.hear(frame, &mut air.bytes) {
        Ok(response) => {
            air.reply = heard(audible, response.len);
            response.given
        }
        Err(_) => false,
    }
}
