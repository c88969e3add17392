ghost use Rattle.std.specs.Prelude.{◌≡◌};
ghost use Rattle.analysis.specs.Calls.{Advancing, Settling};

use crate::fault::RunFault;
use crate::state::{Done, Running, Unfinished};
use output::complete::{complete, is_complete};
use output::progress::Progress;
use table::Table;

impl Running {
    // Adds missing rows, at most as many as the budget.
    pub fn advance<T: Table>(&mut self, t: &mut T, budget: u32) -> Result<Progress, RunFault>
        ensures does { Advancing T.means budget t.old result t.new }
        ensures kept { T.means.bounds t.new ≡ T.means.bounds t.old }
        ensures same { self.new ≡ self.old }
    {
        Ok(complete(t, budget)?)
    }

    // Ends the run, if no row is missing.
    pub fn settle<T: Table>(self, t: &T) -> Result<Done, Unfinished>
        ensures { Settling (T.means.rows t.now) self result }
    {
        if is_complete(t) {
            Ok(Done { facts: self.facts })
        } else {
            Err(Unfinished {
                running: self,
                fault: RunFault::RowsMissing,
            })
        }
    }
}
