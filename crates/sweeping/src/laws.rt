//! What ties the table to the model's runs: the contracts are the theorems, and the functions do nothing.
ghost use Rattle.sweeping.specs.Laws.{RowsAreRuns, RowsAreTrue};

/// The exchange of a row is a run of the model: waking, the command, and its turns under the losses.
pub fn rows_are_runs<S>()
    ensures { RowsAreRuns S }
{}

/// Where the command's first frame was written, a row is no disagreement, whatever the losses: for any application that keeps
/// within its bounds, and any settings in range.
pub fn rows_are_true<S>()
    ensures { RowsAreTrue S }
{}
