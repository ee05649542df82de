//! A sweep, line by line.
ghost use Rattle.std.specs.Prelude.{◌≡◌};
ghost use Rattle.sweeping.specs.Sweeps.{counted, place_of};

use super::line::Line;
use super::order::Order;
use super::row::played;
use super::run::Run;

/// The next line of the table.
#[derive(Clone, Copy, Debug, PartialEq, Eq)]
pub enum Place {
    /// the header
    Names,
    /// the run in which nothing is lost
    Unharmed,
    /// a run of losses
    Losses(Run),
    /// the last line
    Sum,
}

/// What is swept, the turns of the exchange in which nothing is lost, the next line, if one is left, and what was counted.
#[derive(Drop)]
pub struct Sweep {
    order: Order,
    turns: usize,
    place: Option<Place>,
    runs: usize,
    disagreements: usize,
}

/// Counts end here; no sweep has so many runs.
const GREATEST_COUNT: usize = 1_000_000_000_000;

/// One more, if it counts.
fn count(n: usize, more: bool) -> usize
    ensures { result ≡ counted n more }
{
    if more && n < GREATEST_COUNT {
        return n + 1;
    }
    n
}

/// The place of a run of losses, or the last line.
fn place_of(run: Option<Run>) -> Place
    ensures { result ≡ place_of run }
{
    run.map_or(Place::Sum, Place::Losses)
}

impl Sweep {
    ghost use Rattle.sweeping.specs.OrderViews.{order_seen};
    ghost use Rattle.sweeping.specs.Sweeps.{sweep_for, sweep_seen, run_line, Lined};

    /// A sweep before its first line.
    pub fn new(order: Order) -> Sweep
        ensures { sweep_seen result ≡ sweep_for (order_seen order) }
    {
        let unharmed = played(order.values, &order.command, Run::NONE.into());
        Sweep {
            order,
            turns: unharmed.frames,
            place: Some(Place::Names),
            runs: 0,
            disagreements: 0,
        }
    }

    /// Plays a run, and counts it.
    fn play(&mut self, run: Run, next: Place) -> Line
        ensures { Lined (run_line (sweep_seen self.old) run next) result (sweep_seen self.new) }
    {
        let row = played(self.order.values, &self.order.command, run.into());
        self.runs = count(self.runs, true);
        self.disagreements = count(self.disagreements, row.disagrees());
        self.place = Some(next);
        Line::Ended { run, row }
    }
}

impl Iterator for Sweep {
    type Item = Line;

    ghost use Rattle.std.specs.Iterator.{at_most};
    ghost use Rattle.sweeping.specs.Sweeps.{sweep_seen, Goes, lines_left};

    ghost next_gives = { λ s line t. Goes (sweep_seen s) line (sweep_seen t) };

    ghost remaining = { λ s. at_most (lines_left (sweep_seen s)) };

    fn next(&mut self) -> Option<Line> {
        match self.place? {
            Place::Names => {
                self.place = Some(Place::Unharmed);
                Some(Line::Names)
            }
            Place::Unharmed => Some(self.play(Run::NONE, place_of(Run::earliest(self.turns)))),
            Place::Losses(run) => {
                let next = run.next(self.order.losses, self.turns);
                Some(self.play(run, place_of(next)))
            }
            Place::Sum => {
                self.place = None;
                Some(Line::Sum {
                    runs: self.runs,
                    disagreements: self.disagreements,
                })
            }
        }
    }
}
