//! An exchange, played to its end.
ghost use Rattle.std.specs.Prelude.{◌≡◌};
ghost use Rattle.pair.specs.Pairs.{setup_seen, world_seen};
ghost use Rattle.pair.specs.Records.{step_seen};
ghost use Rattle.sweeping.specs.Played.{Acted, trail_seen};
ghost use Rattle.sweeping.specs.Rows.{most_turns};
ghost use Rattle.sweeping.specs.Trails.{and_then, begun, driven};

use super::plan::Plan;
use super::told::{Times, Told};
use applications::Application;
use frames::GREATEST_FRAME;
use pair::{Call, Pair, Step};

/// More turns than an exchange can have.
const MOST_TURNS: usize = 100_000;

/// What has been told so far.
#[derive(Clone, Copy, Debug, PartialEq, Eq)]
pub struct Tally {
    pub told: Told,
    pub times: Times,
}

/// One act more.
fn act<A: Application>(pair: &mut Pair<A>, times: Times, step: Step<'_>) -> Tally
    ensures { Acted A.Application.model pair.old pair.new result (and_then (setup_seen A.Application.model pair.old) (world_seen pair.old) times (step_seen step.entry)) }
{
    let mut frame = [0; GREATEST_FRAME];
    let answer = pair.call(step.call, step.fate, &mut frame);
    Tally {
        told: Told::from(&answer),
        times: times.after(answer.given),
    }
}

/// Begins a command; its first frame has the fate of the first turn.
pub fn begin<A: Application>(pair: &mut Pair<A>, command: &[u8], plan: Plan) -> Tally
    ensures { Acted A.Application.model pair.old pair.new result (begun (setup_seen A.Application.model pair.old) (world_seen pair.old) command.now plan) }
{
    let step = Step {
        call: Call::Begin(command),
        fate: plan.loss().fate(),
    };
    act(pair, Times::Never, step)
}

/// The turns of a plan, as long as the exchange goes on.
pub fn drive<A: Application>(pair: &mut Pair<A>, mut tally: Tally, mut plan: Plan) -> Tally
    ensures { trail_seen pair.new result ≡ driven most_turns (setup_seen A.Application.model pair.old) plan (trail_seen pair.old tally) }
{
    for _turn in 0..MOST_TURNS {
        if !tally.told.goes_on {
            return tally;
        }
        let heard = plan.loss().heard();
        plan = plan.after();
        let step = Step {
            call: heard,
            fate: plan.loss().fate(),
        };
        tally = act(pair, tally.times, step);
    }
    tally
}
