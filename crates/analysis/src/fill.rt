ghost use Rattle.std.specs.Prelude.{◌≡◌};
ghost use Rattle.analysis.specs.Calls.{Putting};

use crate::fault::{Refusal, RunFault};
use crate::state::{Filling, Running};
use rows::answer::Outcome;
use rows::relation::FIRST_DERIVED;
use rows::row::Row;
use table::Table;

impl Filling {
    // Puts a fact.
    pub fn put<T: Table>(&mut self, t: &mut T, r: Row) -> Result<Outcome, RunFault>
        ensures { Putting T.means t.old self.old.facts r result t.new self.new.facts }
    {
        if r.relation >= FIRST_DERIVED {
            return Err(RunFault::NotFact);
        }
        let outcome = t.add(r).map_err(|fault| Refusal {
            facts: self.facts,
            fault,
        })?;
        if outcome == Outcome::Added {
            self.facts = self.facts.saturating_add(1);
        }
        Ok(outcome)
    }

    // Ends the filling.
    pub fn start(self) -> Running
        ensures { result.facts ≡ self.facts }
    {
        Running { facts: self.facts }
    }
}
