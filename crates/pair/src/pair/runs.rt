//! Many calls on a pair.
ghost use Rattle.pair.specs.Records.{RunsInto, Runs};

use super::Pair;
use crate::call::Step;
use crate::recorded::Record;
use applications::Application;
use std::alloc::{AllocError, Global};

impl<A: Application> Pair<A> {
    /// The calls in time order; what is kept of each goes behind the records. Room for all of it is asked for first. If memory
    /// is refused, nothing has happened; where there is room already, it is not refused.
    pub fn run_into(
        &mut self,
        steps: &[Step<'_>],
        records: &mut Vec<Record>,
    ) -> Result<(), AllocError>
        ensures { RunsInto A.Application.model steps.now self.old self.new records.old records.new result }
    {
        records.reserve(steps.len())?;
        for step in steps {
            records.push_reserved(Record::of(self, *step));
        }
        Ok(())
    }

    /// The same with records of its own.
    pub fn run(&mut self, alloc: Global, steps: &[Step<'_>]) -> Result<Vec<Record>, AllocError>
        ensures { Runs A.Application.model steps.now self.old self.new result }
    {
        let mut records = Vec::new(alloc);
        self.run_into(steps, &mut records)?;
        Ok(records)
    }
}
