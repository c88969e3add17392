// The states of a run. Each call that leaves a state takes it, and none can be copied: a put after `start` and a read
// before `settle` do not compile. They are no `Run<S>`: each has calls of its own, and only the number would be shared.
use crate::fault::RunFault;

// Facts are put. The number is that of the facts added so far.
#[derive(Drop, PartialEq, Eq, Debug)]
pub struct Filling {
    pub(crate) facts: u32,
}

// Rows are derived.
#[derive(Drop, PartialEq, Eq, Debug)]
pub struct Running {
    pub(crate) facts: u32,
}

// No row is missing.
#[derive(Drop, PartialEq, Eq, Debug)]
pub struct Done {
    pub(crate) facts: u32,
}

// Rows are missing: the run goes on.
#[derive(Drop, PartialEq, Eq, Debug)]
pub struct Unfinished {
    pub running: Running,
    pub fault: RunFault,
}
