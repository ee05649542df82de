//! Runs of losses, one after the other.
ghost use Rattle.std.specs.Prelude.{◌≡◌};
ghost use Rattle.sweeping.specs.Runs.{last_code};

use super::plan::Plan;

/// So many losses, from this turn on, by the digits of a number to base 4, the lowest first.
#[derive(Clone, Copy, Debug, PartialEq, Eq)]
pub struct Run {
    pub count: usize,
    pub first: usize,
    pub code: usize,
}

/// The greatest number of so many digits to base 4.
fn last_code(count: usize) -> usize
    ensures { result ≡ last_code count }
{
    match count {
        1 => 3,
        2 => 15,
        3 => 63,
        4 => 255,
        _ => 1023,
    }
}

impl Run {
    ghost use Rattle.sweeping.specs.Runs.{no_losses, following, after_unharmed};

    /// No loss at all.
    pub const NONE: Run = Run {
        count: 0,
        first: 0,
        code: 0,
    };

    /// The first run with a loss, if the exchange has a turn.
    pub fn earliest(turns: usize) -> Option<Run>
        ensures { result ≡ after_unharmed turns }
    {
        if turns == 0 {
            return None;
        }
        Some(Run {
            count: 1,
            first: 1,
            code: 0,
        })
    }

    /// The next run of an exchange of so many turns, with at most so many losses: first by its digits, then by its first turn, then by its
    /// length.
    pub fn next(self, losses: usize, turns: usize) -> Option<Run>
        ensures { result ≡ following losses turns self }
    {
        let Run { count, first, code } = self;
        if code < last_code(count) {
            return Some(Run {
                count,
                first,
                code: code + 1,
            });
        }
        if first < turns {
            return Some(Run {
                count,
                first: first + 1,
                code: 0,
            });
        }
        if count < losses {
            return Some(Run {
                count: count + 1,
                first: 1,
                code: 0,
            });
        }
        None
    }
}

impl From<Run> for Plan {
    ghost use Rattle.sweeping.specs.Runs.{plan_from};

    ghost from_gives = { λ run plan. plan ≡ plan_from run };

    fn from(run: Run) -> Plan {
        Plan {
            before: run.first.saturating_sub(1),
            count: run.count,
            code: run.code,
        }
    }
}
