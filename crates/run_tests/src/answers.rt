// What the calls answer, as text.
use analysis::fault::RunFault;
use output::progress::Progress;
use rows::answer::Outcome;
use rows::row::Row;
use std::fmt;

// An answer that shows as a line of the tests has it.
#[derive(Clone, Copy)]
pub struct Told<T>(pub T);

// The row's four numbers.
impl fmt::Display for Told<Row> {
    fn fmt<W: fmt::Write>(&self, f: &mut fmt::Formatter<W>) -> fmt::Result {
        let Row { relation, a, b, c } = self.0;
        write!(f, "{relation} {a} {b} {c}")
    }
}

impl fmt::Display for Told<Option<Row>> {
    fn fmt<W: fmt::Write>(&self, f: &mut fmt::Formatter<W>) -> fmt::Result {
        match self.0 {
            Some(r) => Told(r).fmt(f),
            None => write!(f, "none"),
        }
    }
}

// The number of a refusal, and what it carries.
impl fmt::Display for Told<RunFault> {
    fn fmt<W: fmt::Write>(&self, f: &mut fmt::Formatter<W>) -> fmt::Result {
        let number = self.0.number();
        match self.0 {
            RunFault::Refused(refusal) => {
                let facts = refusal.facts;
                write!(f, "refused {number}, {facts} facts")
            }
            RunFault::Stopped(stop) => {
                let relation = stop.relation;
                let added = stop.added;
                write!(f, "refused {number}, relation {relation}, {added} added")
            }
            _ => write!(f, "refused {number}"),
        }
    }
}

impl fmt::Display for Told<Result<Outcome, RunFault>> {
    fn fmt<W: fmt::Write>(&self, f: &mut fmt::Formatter<W>) -> fmt::Result {
        match self.0 {
            Ok(Outcome::Added) => write!(f, "added"),
            Ok(Outcome::Held) => write!(f, "held"),
            Err(fault) => Told(fault).fmt(f),
        }
    }
}

impl fmt::Display for Told<Result<Progress, RunFault>> {
    fn fmt<W: fmt::Write>(&self, f: &mut fmt::Formatter<W>) -> fmt::Result {
        match self.0 {
            Ok(Progress::Finished(n)) => write!(f, "Finished {n}"),
            Ok(Progress::Spent(n)) => write!(f, "Spent {n}"),
            Err(fault) => Told(fault).fmt(f),
        }
    }
}
