// Calls of a run as values, and their answers. Values and no closures, since the promise over runs ranges over lists of them.
use analysis::fault::RunFault;
use analysis::state::{Done, Filling, Running};
use atom_puts::fact::Fact;
use facts::atom::FactTypes;
use output::progress::Progress;
use rows::answer::Outcome;
use rows::row::Row;

// A call with its arguments, but for the state that it is made on.
#[derive(Clone, Drop)]
pub enum Call<F: FactTypes> {
    Begin,
    Put(Row),
    PutFact(Fact<F>),
    Start,
    Advance(u32),
    Settle,
    Read(Row),
}

// A call, and the run that it is made on. Runs are numbered from 0, by the begins that were accepted; a begin is made on none.
#[derive(Clone, Drop)]
pub struct Step<F: FactTypes> {
    pub run: usize,
    pub call: Call<F>,
}

// A call that was made, in rows, with its answer, whole.
#[derive(Clone, Copy, PartialEq, Eq, Debug)]
pub enum Event {
    // The run is not in the state that the call takes, so that no caller can make the call.
    NotMade,
    Began(Result<(), RunFault>),
    Put(Row, Result<Outcome, RunFault>),
    Started,
    Advanced(u32, Result<Progress, RunFault>),
    Settled(Result<(), RunFault>),
    Read(Row, Option<Row>),
}

// The state that a run is in.
#[derive(Drop, PartialEq, Eq, Debug)]
pub enum State {
    Filling(Filling),
    Running(Running),
    Done(Done),
}
