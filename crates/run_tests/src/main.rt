// Runs on small tables, and what their calls answer: a line to each call, below the name of each case.
#![tactic(auto)]

mod answers;
mod example;
mod orders;
mod refusals;
mod whole;

use bits::Bits;
use list::List;
use std::io;
use table::Table;
use table::maxima::Maxima;
use table::quota::Quota;
use whole::run;

// The example by budgets, on lists: 4 words to a row, and 30 rows in all.
fn on_lists(rt: &HostRuntime) -> io::Result<()> {
    for (title, len, budgets) in [
        ("a list of 400 words", 400, &[10, 10, 10][..]),
        ("a list of 120 words", 120, &[100]),
        ("budgets of 0", 120, &[0, 22, 0]),
        ("a list of 116 words", 116, &[100]),
        ("a list of 116 words, by just what goes in", 116, &[21]),
    ] {
        let mut words = [0u32; 400];
        println!(rt; "# {title}")?;
        run(rt, &mut List::make(&mut words[..len], 3), budgets)?;
    }
    Ok(())
}

// The same under a quota that relation 33 meets.
fn run_under<T: Table>(rt: &HostRuntime, below: &mut T) -> io::Result<()> {
    let mut own = Maxima::all(100);
    own.limit(33, 4);
    run(rt, &mut Quota::new(below, own), &[100])
}

// The same on bit tables, 444 bits at width 3; and under the quota.
fn on_others(rt: &HostRuntime) -> io::Result<()> {
    let mut bits = [0u64; 7];
    rt.println("# a bit table of width 3")?;
    run(rt, &mut Bits::make(&mut bits, 3), &[10, 10, 10])?;
    let mut bits = [0u64; 7];
    rt.println("# a bit table under a quota of 4 on relation 33")?;
    run_under(rt, &mut Bits::make(&mut bits, 3))?;
    let mut words = [0u32; 400];
    rt.println("# a list under a quota of 4 on relation 33")?;
    run_under(rt, &mut List::make(&mut words, 3))
}

// Each case opens a table of its own: a function that is given the opening, and so serves lists and bit tables alike, would
// have to lend out what it captured.
fn refused(rt: &HostRuntime) -> io::Result<()> {
    let mut words = [0u32; 400];
    rt.println("# a begin on a table that holds a row")?;
    refusals::begin_again(rt, &mut List::make(&mut words, 3))?;
    let mut words = [0u32; 400];
    rt.println("# puts that are refused")?;
    refusals::puts(rt, &mut List::make(&mut words, 3))?;
    let mut words = [0u32; 4];
    rt.println("# a full list of 4 words")?;
    refusals::full(rt, &mut List::make(&mut words, 3))?;
    let mut words = [0u32; 400];
    rt.println("# a settle too early")?;
    refusals::settle_early(rt, &mut List::make(&mut words, 3))
}

// A bit table has a place for every row, so that only a quota can fill it.
fn full_under<T: Table>(rt: &HostRuntime, below: &mut T) -> io::Result<()> {
    let mut own = Maxima::all(100);
    own.limit(2, 1);
    refusals::full(rt, &mut Quota::new(below, own))
}

fn refused_on_bits(rt: &HostRuntime) -> io::Result<()> {
    let mut bits = [0u64; 7];
    rt.println("# a begin on a bit table that holds a row")?;
    refusals::begin_again(rt, &mut Bits::make(&mut bits, 3))?;
    let mut bits = [0u64; 7];
    rt.println("# puts that a bit table refuses")?;
    refusals::puts(rt, &mut Bits::make(&mut bits, 3))?;
    let mut bits = [0u64; 7];
    rt.println("# a bit table under a quota of 1 on relation 2")?;
    full_under(rt, &mut Bits::make(&mut bits, 3))?;
    let mut bits = [0u64; 7];
    rt.println("# a settle too early on a bit table")?;
    refusals::settle_early(rt, &mut Bits::make(&mut bits, 3))
}

fn main(rt: HostRuntime) -> io::Result<()> {
    on_lists(&rt)?;
    on_others(&rt)?;
    refused(&rt)?;
    refused_on_bits(&rt)?;
    rt.println("# three facts in each of their orders")?;
    orders::every_order(&rt)
}
