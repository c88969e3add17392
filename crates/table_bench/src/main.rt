// Prints nanoseconds a call, for growing tables, if it is given an argument; with none it does nothing, so that the gate
// has no timing to compare.
#![tactic(auto)]

use bits::Bits;
use list::List;
use rows::relation::CFG_EDGE;
use rows::row::Row;
use std::env;
use std::time::Instant;
use table::Table;

// Wide enough for the most rows that are timed, and no wider than a bit table may be.
const WIDTH: u32 = 32;

const MOST: u32 = 1024;

fn main(rt: HostRuntime) -> anyhow::Result<()> {
    run(&rt)
}

fn run(rt: &HostRuntime) -> anyhow::Result<()> {
    if env::args(rt)?.count() < 2 {
        return Ok(());
    }
    for n in [16, 64, 256, MOST] {
        let mut words = [0u32; 4096];
        time(rt, "list", &mut List::make(&mut words, WIDTH), n)?;
        let mut words = [0u64; 3105];
        time(rt, "bits", &mut Bits::make(&mut words, WIDTH), n)?;
    }
    Ok(())
}

fn row(i: u32) -> Row {
    Row::new(CFG_EDGE, i / WIDTH, i % WIDTH, 0)
}

// Nanoseconds for each of n calls.
fn timed<F: FnMut(u32)>(rt: &HostRuntime, n: u32, call: F) -> anyhow::Result<u128>
    requires { F.IsAlwaysCallable call }
{
    let mut call = call;
    let start = Instant::now(rt)?;
    for i in 0..n {
        call(i);
    }
    let spent = start.elapsed(rt)?.as_nanos();
    Ok(spent.checked_div(u128::from(n)).unwrap_or(0))
}

// Adds n rows, then asks for each of them.
fn time<T: Table>(rt: &HostRuntime, name: &str, table: &mut T, n: u32) -> anyhow::Result<()> {
    let add = timed(rt, n, |i| {
        let _ = table.add(row(i));
    })?;
    let mut found: u32 = 0;
    let holds = timed(
        rt,
        n,
        |i| found = found.saturating_add(u32::from(table.holds(row(i)))),
    )?;
    let next = timed(
        rt,
        n,
        |i| found = found.saturating_add(u32::from(table.next(row(i)).is_some())),
    )?;
    println!(rt;
        "{name}, {n} rows: add {add} ns, holds {holds} ns, next {next} ns, {found} found"
    )?;
    Ok(())
}
