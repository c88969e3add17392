// A run told call by call: the facts as they are put, the rows as they are derived, the derived rows as they are read, and
// what the errors among them mean.
use crate::dump::{WIDTH, words_for};
use crate::fault::{ListingFault, refusal};
use crate::input::read_input;
use crate::load::load_next;
use crate::reading::read_derived;
use crate::words::{Explained, Named, is_error, name_of};
use analysis::begin::begin;
use analysis::state::{Filling, Running};
use facts::reader::Reader;
use list::List;
use output::progress::Progress;
use rows::relation::{FIRST_DERIVED, RELATIONS};
use rows::row::Row;
use std::alloc::{AllocError, Global};
use std::io::Read;
use table::Table;

// How many rows each advance may add.
const BUDGET: u32 = 10;

// The walk through what is read from outside. A refusal ends it, told as its last line.
pub fn walk_input<R: Read + Drop>(heap: Global, input: R) -> Result<String, AllocError> {
    let mut text = String::new(heap);
    let told = read_input(heap, input).and_then(|bytes| walk(heap, &mut text, bytes.as_slice()));
    if let Err(fault) = told {
        text.push_str(refusal(heap, fault)?.as_str())?;
    }
    Ok(text)
}

// Tells the run of a facts file on a list of its own.
pub fn walk(heap: Global, text: &mut String, bytes: &[u8]) -> Result<(), ListingFault> {
    let mut words = words_for(heap, bytes)?;
    let mut list = List::make(words.as_mut_slice(), WIDTH);
    let mut filling = begin(&list)?;
    tell_facts(text, &mut filling, &mut list, bytes)?;
    let mut running = filling.start();
    tell_advances(text, &mut running, &mut list)?;
    tell_counts(text, &list)?;
    let done = running.settle(&list)?;
    writeln!(text, "\nThe run is settled: no row is missing.")?;
    let rows = read_derived(heap, &done, &list)?;
    tell_rows(text, rows.as_slice())?;
    tell_errors(text, rows.as_slice())?;
    Ok(())
}

// Each record as it is read and put.
fn tell_facts<T: Table>(
    text: &mut String,
    filling: &mut Filling,
    t: &mut T,
    bytes: &[u8],
) -> Result<(), ListingFault> {
    writeln!(
        text,
        "The facts, each read from its offset in the file and put into the table:"
    )?;
    let mut reader = Reader::new(bytes);
    while let Some(loaded) = load_next(filling, &mut reader, t)? {
        writeln!(text, "  {loaded}")?;
    }
    let count = t.count();
    writeln!(text, "The table holds {count} facts.")?;
    Ok(())
}

// Each advance and its answer, until no row is missing.
#[tactic(auto, using(crate::proofs::Derives::less_room))]
fn tell_advances<T: Table>(
    text: &mut String,
    running: &mut Running,
    t: &mut T,
) -> Result<(), ListingFault> {
    writeln!(
        text,
        "\nThe missing rows, derived by one budget after another:"
    )?;
    loop {
        match running.advance(t, BUDGET)? {
            Progress::Spent(n) => writeln!(text, "  advance {BUDGET}: Spent {n}")?,
            Progress::Finished(n) => {
                writeln!(text, "  advance {BUDGET}: Finished {n}")?;
                return Ok(());
            }
        }
    }
}

// How many rows each derived relation has.
fn tell_counts<T: Table>(text: &mut String, t: &T) -> Result<(), AllocError> {
    writeln!(
        text,
        "\nThe derived relations, and how many rows each has now:"
    )?;
    for relation in FIRST_DERIVED..RELATIONS {
        let name = name_of(relation);
        let n = t.count_of(relation);
        let rows = if n == 1 { "row" } else { "rows" };
        writeln!(text, "  {relation} {name}: {n} {rows}")?;
    }
    Ok(())
}

// Every derived row.
fn tell_rows(text: &mut String, rows: &[Row]) -> Result<(), AllocError> {
    let count = rows.len();
    writeln!(
        text,
        "\nThe {count} derived rows, read relation by relation:"
    )?;
    for row in rows {
        writeln!(text, "  {}", Named(*row))?;
    }
    Ok(())
}

// The errors among the derived rows.
fn tell_errors(text: &mut String, rows: &[Row]) -> Result<(), AllocError> {
    writeln!(text, "\nThe errors:")?;
    if !rows.iter().any(|row| is_error(row.relation)) {
        writeln!(text, "  none")?;
    }
    for row in rows.iter().filter(|row| is_error(row.relation)) {
        writeln!(text, "  {}", Explained(*row))?;
    }
    Ok(())
}
