// Calls that are refused, and what goes on after them.
use crate::answers::Told;
use crate::example::facts;
use crate::whole::{advance, put, put_all, read};
use analysis::begin::begin;
use analysis::state::Running;
use rows::row::Row;
use std::io;
use table::Table;

fn print_begin<T: Table>(rt: &HostRuntime, t: &T) -> io::Result<()> {
    match begin(t) {
        Ok(_) => println!(rt; "begin: accepted"),
        Err(fault) => println!(rt; "begin: {}", Told(fault)),
    }
}

// A begin is refused as soon as a row is held, also while another run has its facts put.
pub fn begin_again<T: Table>(rt: &HostRuntime, t: &mut T) -> io::Result<()> {
    print_begin(rt, t)?;
    let Ok(mut filling) = begin(t) else {
        return Ok(());
    };
    print_begin(rt, t)?;
    put(rt, &mut filling, t, Row::new(2, 0, 1, 0))?;
    print_begin(rt, t)
}

// The relation is looked at first, then the table's own refusal is passed on, with the number of facts added so far.
pub fn puts<T: Table>(rt: &HostRuntime, t: &mut T) -> io::Result<()> {
    let Ok(mut filling) = begin(t) else {
        return Ok(());
    };
    for r in [
        Row::new(17, 0, 0, 0),
        Row::new(18, 0, 0, 0),
        Row::new(18, 3, 0, 0),
        Row::new(40, 0, 0, 0),
        Row::new(2, 3, 0, 0),
        Row::new(2, 0, 0, 1),
        Row::new(17, 0, 0, 0),
    ] {
        put(rt, &mut filling, t, r)?;
    }
    Ok(())
}

// A fact that a full table holds is held, and no refusal.
pub fn full<T: Table>(rt: &HostRuntime, t: &mut T) -> io::Result<()> {
    let Ok(mut filling) = begin(t) else {
        return Ok(());
    };
    for r in [
        Row::new(2, 0, 1, 0),
        Row::new(2, 1, 2, 0),
        Row::new(2, 0, 1, 0),
        Row::new(18, 0, 1, 0),
    ] {
        put(rt, &mut filling, t, r)?;
    }
    let mut running = filling.start();
    advance(rt, &mut running, t, 5)?;
    settle(rt, running, t)
}

// Settles, and reads an error of the location-insensitive analysis, or else goes on with a large budget.
fn settle<T: Table>(rt: &HostRuntime, running: Running, t: &mut T) -> io::Result<()> {
    let unfinished = match running.settle(t) {
        Ok(done) => return read(rt, &done, t, Row::new(38, 0, 0, 0)),
        Err(unfinished) => unfinished,
    };
    println!(rt; "settle: {}", Told(unfinished.fault))?;
    let mut running = unfinished.running;
    advance(rt, &mut running, t, 100)?;
    match running.settle(t) {
        Ok(_) => println!(rt; "settled"),
        Err(unfinished) => println!(rt; "settle: {}", Told(unfinished.fault)),
    }
}

// The run is handed back, and goes on.
pub fn settle_early<T: Table>(rt: &HostRuntime, t: &mut T) -> io::Result<()> {
    let Ok(mut filling) = begin(t) else {
        return Ok(());
    };
    put_all(rt, &mut filling, t, &facts())?;
    let mut running = filling.start();
    advance(rt, &mut running, t, 21)?;
    settle(rt, running, t)
}
