//! What ties the pair to the model's runs: the contracts are the theorems, and the functions do nothing.
ghost use Rattle.pair.specs.Records.{StartsARun};
ghost use Rattle.pair.specs.Runs.{ActsAreRuns};

use applications::Application;

/// Acts from the outset are a run of the model, and lead where it leads.
pub fn acts_are_runs<S>()
    ensures { ActsAreRuns S }
{}

/// A pair that starts at the outset makes a run of the model, and is where that run leads.
pub fn starts_a_run<A: Application>()
    ensures { StartsARun A.Application.model }
{}
