// A whole run on the example: all facts, each budget in turn, and reads if it settles.
use crate::answers::Told;
use crate::example::facts;
use analysis::begin::begin;
use analysis::state::{Done, Filling, Running};
use rows::answer::Outcome;
use rows::row::Row;
use std::io;
use table::Table;

// Asked of each run that settles. Above 39 there is no relation.
fn asked() -> [Row; 9] {
    [
        Row::new(0, 0, 0, 0),
        Row::new(0, 0, 0, 1),
        Row::new(33, 0, 0, 1),
        Row::new(33, 2, 0, 2),
        Row::new(33, 2, 0, 3),
        Row::new(35, 0, 0, 0),
        Row::new(36, 0, 0, 0),
        Row::new(38, 0, 2, 0),
        Row::new(40, 0, 0, 0),
    ]
}

// Puts a fact, and prints the answer.
pub fn put<T: Table>(rt: &HostRuntime, filling: &mut Filling, t: &mut T, r: Row) -> io::Result<()> {
    let answer = filling.put(t, r);
    println!(rt; "put {}: {}", Told(r), Told(answer))
}

// Puts facts; of those that are not added, the answer is printed.
pub fn put_all<T: Table>(
    rt: &HostRuntime,
    filling: &mut Filling,
    t: &mut T,
    facts: &[Row],
) -> io::Result<()> {
    for r in facts {
        match filling.put(t, *r) {
            Ok(Outcome::Added) => {}
            answer => println!(rt; "put {}: {}", Told(*r), Told(answer))?,
        }
    }
    Ok(())
}

// Advances, and prints the answer.
pub fn advance<T: Table>(
    rt: &HostRuntime,
    running: &mut Running,
    t: &mut T,
    budget: u32,
) -> io::Result<()> {
    let answer = running.advance(t, budget);
    println!(rt; "advance {budget}: {}", Told(answer))
}

// Reads, and prints the answer.
pub fn read<T: Table>(rt: &HostRuntime, done: &Done, t: &T, from: Row) -> io::Result<()> {
    println!(rt; "read {}: {}", Told(from), Told(done.read(t, from)))
}

pub fn run<T: Table>(rt: &HostRuntime, t: &mut T, budgets: &[u32]) -> io::Result<()> {
    let mut filling = match begin(t) {
        Ok(filling) => filling,
        Err(fault) => return println!(rt; "begin: {}", Told(fault)),
    };
    put_all(rt, &mut filling, t, &facts())?;
    let mut running = filling.start();
    for budget in budgets {
        advance(rt, &mut running, t, *budget)?;
    }
    match running.settle(t) {
        Ok(done) => {
            for from in asked() {
                read(rt, &done, t, from)?;
            }
            Ok(())
        }
        Err(unfinished) => println!(rt; "settle: {}", Told(unfinished.fault)),
    }
}
