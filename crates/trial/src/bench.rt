//! The bench: both ends as a script sets them, with the card woken.
ghost use Rattle.std.specs.Prelude.{◌≡◌, true, length};
ghost use Rattle.card.specs.Held.{settings_of, settings_good};
ghost use Rattle.protocol.specs.Settings.{card_in_range};
ghost use Rattle.pair.specs.Pairs.{world_seen, setup_seen};
ghost use Rattle.pair.specs.Runs.{ran};
ghost use Rattle.script.specs.SetupViews.{values_seen};
ghost use Rattle.stages.specs.Setups.{wished};
ghost use Rattle.trial.specs.Benches.{reader_for, card_for, waking};
ghost use Rattle.trial.specs.Starts.{Stands};

use applications::Application;
use buffers::ANSWER_ROOM;
use card::{CardSettings, LONGEST_HISTORICAL};
use frames::Refusal;
use pair::{Call, Fate, Pair};
use script::Values;
use stages::Settings;

/// What the reader is set to.
pub fn reader_settings(values: Values) -> Settings
    ensures { wished result ≡ reader_for (values_seen values) }
{
    Settings {
        fsdi: values.fsdi,
        cid: values.cid,
        repeats: values.repeats,
        waits: values.waits,
    }
}

/// What the card is set to.
pub fn card_settings(values: Values) -> CardSettings
    ensures set { settings_of result ≡ card_for (values_seen values) }
    ensures good { settings_good result ≡ card_in_range (card_for (values_seen values)) }
{
    CardSettings {
        fsci: values.fsci,
        fwi: 4,
        sfgi: 0,
        ta: 0,
        supports: true,
        historical: [0; LONGEST_HISTORICAL],
        historical_len: 0,
    }
}

/// Wakes the card, unharmed; each call is handed this buffer.
pub fn wake<A: Application>(pair: &mut Pair<A>, out: &mut [u8])
    ensures setup { setup_seen A.Application.model pair.new ≡ setup_seen A.Application.model pair.old }
    ensures world { world_seen pair.new ≡ ran (setup_seen A.Application.model pair.old) (length out.old) (world_seen pair.old) waking }
{
    pair.call(Call::Ask, Fate::Whole, out);
    pair.call(Call::Hear, Fate::Whole, out);
    pair.call(Call::Start, Fate::Whole, out);
}

/// The bench with these values, the card woken; or none, where a setting is out of its range.
pub fn set_up<A: Application>(values: Values, application: A) -> Result<Pair<A>, (A, Refusal)>
    ensures { Stands A.Application.model (values_seen values) application result }
{
    let mut pair = Pair::new(reader_settings(values), card_settings(values), application)?;
    wake(&mut pair, &mut [0; ANSWER_ROOM]);
    Ok(pair)
}
