//! How a run ended.
ghost use Rattle.std.specs.Prelude.{◌≡◌};
ghost use Rattle.exchange.specs.Views.{says_seen};
ghost use Rattle.pair.specs.Pairs.{world_seen, setup_seen};
ghost use Rattle.script.specs.SetupViews.{values_seen};
ghost use Rattle.trial.specs.Benches.{reader_for, card_for};
ghost use Rattle.sweeping.specs.RowViews.{row_seen};
ghost use Rattle.sweeping.specs.Rows.{row_for, row_of, row_played, unplayed, disagrees};

use super::plan::Plan;
use super::play::{begin, drive};
use super::told::Times;
use applications::{Application, Metre, Yarn};
use exchange::Says;
use frames::GREATEST_FRAME;
use pair::Pair;
use script::{App, Values};
use trial::{card_settings, reader_settings, wake};

/// How an exchange ended, the frames written, what the reader says, and how often the application was given the command.
#[derive(Clone, Copy, Debug, PartialEq, Eq)]
pub struct Row {
    pub result: u8,
    pub frames: usize,
    pub says: Says,
    pub times: Times,
}

/// Settings that are refused: nothing is played.
fn unplayed() -> Row
    ensures { row_seen result ≡ unplayed }
{
    Row {
        result: 1,
        frames: 0,
        says: Says::Nothing,
        times: Times::Never,
    }
}

/// One exchange with a pair that has not been woken.
fn play_out<A: Application>(pair: &mut Pair<A>, command: &[u8], plan: Plan) -> Row
    ensures { row_seen result ≡ row_played (setup_seen A.Application.model pair.old) (world_seen pair.old) command.now plan }
{
    wake(pair, &mut [0; GREATEST_FRAME]);
    let tally = begin(pair, command, plan);
    let tally = drive(pair, tally, plan);
    Row {
        result: tally.told.result,
        frames: tally.told.frames,
        says: pair.says(),
        times: tally.times,
    }
}

/// One exchange with a new pair.
fn play<A: Application + Drop>(values: Values, application: A, command: &[u8], plan: Plan) -> Row
    ensures { row_seen result ≡ row_for A.Application.model (reader_for (values_seen values)) (card_for (values_seen values)) application command.now plan }
{
    match Pair::new(reader_settings(values), card_settings(values), application) {
        Ok(mut pair) => play_out(&mut pair, command, plan),
        Err(_) => unplayed(),
    }
}

/// One exchange with the application that the set-up names.
pub fn played(values: Values, command: &[u8], plan: Plan) -> Row
    ensures { row_seen result ≡ row_of (values_seen values) command.now plan }
{
    match values.app {
        App::Metre(count) => play(values, Metre::new(count), command, plan),
        App::Yarn(fill) => play(values, Yarn::filled(fill), command, plan),
    }
}

impl Row {
    /// What the reader says is not what is true at the card, or the application was given the command twice.
    pub fn disagrees(self) -> bool
        ensures { result ≡ disagrees (says_seen self.says) self.times }
    {
        matches!(
            (self.says, self.times),
            (_, Times::Oftener)
                | (Says::Done | Says::Taken, Times::Never)
                | (Says::NotTaken, Times::Once)
        )
    }
}
