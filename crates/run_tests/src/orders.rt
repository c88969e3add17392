// Facts put in any order give one table.
use crate::answers::Told;
use crate::whole::put_all;
use analysis::begin::begin;
use list::List;
use rows::relation::{CFG_EDGE, LOAN_ISSUED_AT, UNIVERSAL_REGION};
use rows::row::Row;
use std::io;
use table::Table;

fn orders() -> [[Row; 3]; 6] {
    let issued = Row::new(LOAN_ISSUED_AT, 0, 0, 0);
    let region = Row::new(UNIVERSAL_REGION, 0, 0, 0);
    let edge = Row::new(CFG_EDGE, 0, 1, 0);
    [
        [issued, region, edge],
        [issued, edge, region],
        [region, issued, edge],
        [region, edge, issued],
        [edge, issued, region],
        [edge, region, issued],
    ]
}

// The rows of a table, ascending. As many steps as the table has rows: so the loop ends with no proof.
fn rows_of<T: Table>(rt: &HostRuntime, t: &T) -> io::Result<Vec<Row>> {
    let mut rows = Vec::new(rt.alloc());
    let mut from = Row::start(0);
    for _ in 0..t.count() {
        if let Some(r) = t.next(from) {
            rows.push(r)?;
            from = Row {
                c: r.c.saturating_add(1),
                ..r
            };
        }
    }
    Ok(rows)
}

// The rows at the end of a run on these facts.
fn rows_from(rt: &HostRuntime, facts: &[Row]) -> io::Result<Vec<Row>> {
    let mut words = [0u32; 400];
    let mut t = List::make(&mut words, 2);
    if let Ok(mut filling) = begin(&t) {
        put_all(rt, &mut filling, &mut t, facts)?;
        let mut running = filling.start();
        let _ = running.advance(&mut t, 100);
    }
    rows_of(rt, &t)
}

pub fn every_order(rt: &HostRuntime) -> io::Result<()> {
    let orders = orders();
    let first = rows_from(rt, &orders[0])?;
    for r in &first {
        println!(rt; "{}", Told(*r))?;
    }
    for facts in &orders {
        let rows = rows_from(rt, facts)?;
        if rows.as_slice() == first.as_slice() {
            rt.println("same")?;
        } else {
            rt.println("another table")?;
        }
    }
    Ok(())
}
