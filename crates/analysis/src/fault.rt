// What the calls of a run refuse.
ghost use Rattle.std.specs.Prelude.{◌≡◌};
ghost use Rattle.analysis.specs.Faults.{number};

use output::progress::Stop;
use rows::answer::TableFault;

// The table's refusal of a fact, whole, with the number of facts added so far.
#[derive(Clone, Copy, PartialEq, Eq, Debug)]
pub struct Refusal {
    pub facts: u32,
    pub fault: TableFault,
}

#[derive(Clone, Copy, PartialEq, Eq, Debug)]
pub enum RunFault {
    // begin: the table holds a row.
    NotEmpty,
    // put: the relation is no fact's.
    NotFact,
    // settle: a row is missing.
    RowsMissing,
    // put: the table refuses the fact.
    Refused(Refusal),
    // advance: the table refuses a derived row.
    Stopped(Stop),
}

impl RunFault {
    pub fn number(self) -> u32
        ensures { result ≡ number self }
    {
        match self {
            RunFault::NotEmpty => 5,
            RunFault::NotFact => 6,
            RunFault::RowsMissing => 7,
            RunFault::Refused(refusal) => refusal.fault.number(),
            RunFault::Stopped(stop) => stop.fault.number(),
        }
    }
}
