//! What both ends are set to.
ghost use Rattle.std.specs.Prelude.{◌≡◌};
ghost use Rattle.script.specs.SetupViews.{values_seen};
ghost use Rattle.sweeping.specs.Orders.{in_range};

use script::Values;
use trial::{card_settings, reader_settings};

/// The settings of both ends are in their ranges.
pub fn in_range(values: Values) -> bool
    ensures { result ≡ in_range (values_seen values) }
{
    let card = card_settings(values);
    reader_settings(values).is_valid() && card.is_valid()
}
