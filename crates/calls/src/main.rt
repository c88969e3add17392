// How often the evaluator asks its table, for each derived row: bodies of growing size, straight and with a loop, and facts
// files. Sizes are given as arguments; the larger ones take a while on a list, which looks rows up by walking them. The
// argument `facts` stands for the facts file on standard input.
#![tactic(auto)]

use counting::Counted;
use facts::whole::read_all;
use list::List;
use output::complete::complete;
use output::progress::Progress;
use rows::relation;
use rows::row::Row;
use std::alloc::{AllocError, Global};
use std::io::Read;
use std::{env, io};
use table::Table;

// A table for the largest bodies that the program is asked for.
const WORDS: usize = 262_140;

const WIDTH: u32 = 65_535;

#[derive(Clone, Copy)]
enum Shape {
    Straight,
    Loop,
}

#[derive(Drop)]
struct Counts {
    facts: u32,
    derived: u32,
    nexts: u64,
    holds: u64,
}

fn put<T: Table>(t: &mut T, relation: u32, a: u32, b: u32, c: u32) {
    let _ = t.add(Row::new(relation, a, b, c));
}

// One borrow of a body: a variable is assigned, borrowed, passed on and used some points later, while another borrow is live.
fn borrow_at<T: Table>(t: &mut T, i: u32, point: u32) {
    let next = i.saturating_add(1);
    let used = point.saturating_add(7);
    put(t, relation::LOAN_ISSUED_AT, i, i, point);
    put(t, relation::SUBSET_BASE, i, next, point.saturating_add(1));
    put(t, relation::VAR_DEFINED_AT, i, point, 0);
    put(t, relation::VAR_USED_AT, i, used, 0);
    put(t, relation::USE_OF_VAR_DEREFS_ORIGIN, i, i, 0);
    put(t, relation::PATH_IS_VAR, i, i, 0);
    put(t, relation::PATH_ASSIGNED_AT_BASE, i, point, 0);
    put(t, relation::PATH_ACCESSED_AT_BASE, i, used, 0);
    put(
        t,
        relation::LOAN_INVALIDATED_AT,
        point.saturating_add(5),
        i,
        0,
    );
}

// A body of some borrows, four points to each.
fn body<T: Table>(t: &mut T, borrows: u32, shape: Shape) {
    let points = borrows.saturating_mul(4).saturating_add(8);
    for p in 0..points {
        put(t, relation::CFG_EDGE, p, p.saturating_add(1), 0);
    }
    if let Shape::Loop = shape {
        put(t, relation::CFG_EDGE, points, points / 2, 0);
    }
    for i in 0..borrows {
        borrow_at(t, i, i.saturating_mul(4));
    }
}

// Completes a table of facts, and tells what it was asked.
fn completed<T: Table>(t: &mut Counted<T>) -> Counts {
    let facts = t.count();
    let derived = match complete(t, u32::MAX) {
        Ok(Progress::Finished(n) | Progress::Spent(n)) => n,
        Err(stop) => stop.added,
    };
    Counts {
        facts,
        derived,
        nexts: t.nexts(),
        holds: t.asked(),
    }
}

// The counts of a completion on a list of its own, which is filled first.
fn on_list<F: FnOnce(&mut Counted<List<'_>>)>(heap: Global, fill: F) -> Result<Counts, AllocError>
    requires { F.IsAlwaysCallable fill }
{
    let mut words = vec![in heap; 0u32; WORDS]?;
    let mut t = Counted::new(List::make(words.as_mut_slice(), WIDTH));
    fill(&mut t);
    Ok(completed(&mut t))
}

// Tenths of calls for each row.
fn tenths(calls: u64, rows: u32) -> u64 {
    if rows == 0 {
        return 0;
    }
    calls.saturating_mul(10) / u64::from(rows)
}

fn report(rt: &HostRuntime, name: &str, c: Counts) -> io::Result<()> {
    let next = tenths(c.nexts, c.derived);
    let holds = tenths(c.holds, c.derived);
    let facts = c.facts;
    let derived = c.derived;
    println!(rt;
        "{name}: {facts} facts, {derived} derived; for each row {}.{} next, {}.{} holds",
        next / 10,
        next % 10,
        holds / 10,
        holds % 10
    )
}

fn report_file(rt: &HostRuntime) -> anyhow::Result<()> {
    let mut bytes = Vec::new(rt.alloc());
    rt.stdin().read_to_end(&mut bytes)?;
    match read_all(rt.alloc(), bytes.as_slice()) {
        Ok(records) => {
            let counts = on_list(rt.alloc(), |t| {
                for record in &records {
                    let _ = t.add(record.row);
                }
            })?;
            report(rt, "facts", counts)?;
        }
        Err(fault) => println!(rt; "{fault}")?,
    }
    Ok(())
}

fn report_size(rt: &HostRuntime, borrows: u32) -> anyhow::Result<()> {
    let heap = rt.alloc();
    for (name, shape) in [("straight", Shape::Straight), ("loop", Shape::Loop)] {
        let title = format!(in heap; "{name} {borrows}")?;
        let counts = on_list(heap, |t| body(t, borrows, shape))?;
        report(rt, title.as_str(), counts)?;
    }
    Ok(())
}

fn main(rt: HostRuntime) -> anyhow::Result<()> {
    for word in env::args(&rt)?.skip(1) {
        if word.as_str() == "facts" {
            report_file(&rt)?;
        } else {
            report_size(&rt, word.as_str().parse::<u32>()?)?;
        }
    }
    Ok(())
}
