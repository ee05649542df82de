//! The fields of a line.
ghost use Rattle.std.specs.Prelude.{◌≡◌};
ghost use Rattle.std.specs.Option.{option_map};
ghost use Rattle.frames.specs.Views.{agreement};
ghost use Rattle.inspection.specs.Words.{number_in, limit_in, card_in};

use frames::{Agreed, GREATEST_FRAME};

/// The number that digits stand for, at most 1000.
fn number_in(field: &[u8]) -> Option<usize>
    ensures { result ≡ number_in field.now }
{
    text::number_in(field).map(|n| n.min(1000))
}

/// A frame size.
pub fn limit_in(field: &[u8]) -> Option<usize>
    ensures { result ≡ limit_in field.now }
{
    match number_in(field)? {
        n @ (16 | 24 | 32 | 40 | 48 | 64 | 96 | 128 | GREATEST_FRAME) => Some(n),
        _ => None,
    }
}

/// A card number, or a dash for none.
pub fn card_in(field: &[u8]) -> Option<Agreed>
    ensures { option_map agreement result ≡ card_in field.now }
{
    match field {
        [] => None,
        b"-" => Some(Agreed::NoNumber),
        _ => match number_in(field)? {
            n if n < 15 => Some(Agreed::Number(n as u8)),
            _ => None,
        },
    }
}
