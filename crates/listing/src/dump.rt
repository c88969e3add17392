// Every derived row of a facts file as text, or the one line of its refusal.
ghost use Rattle.std.specs.Prelude.{◌≡◌, ◌<◌, length, IfOk, Ok, Err, string_bytes, MatchResult};
ghost use Rattle.listing.specs.Listing.{most, Lists, Listing};
ghost use Rattle.listing.specs.Dumps.{Dumped, DumpedOfSome};

use crate::derive::derive;
use crate::fault::{ListingFault, refusal};
use crate::input::{MOST_BYTES, read_input};
use crate::lines::lines;
use crate::load::load;
use crate::reading::read_derived;
use analysis::begin::begin;
use list::List;
use rows::row::Row;
use std::alloc::{AllocError, Global};
use std::io::Read;
use table::Table;

// The words of the table, and its width: as many rows and as wide as a list can be.
pub const WORDS: usize = 262_140;

pub const WIDTH: u32 = 65_535;

// The listing of what is read from outside: that of some bytes, since no contract says which a reader gives.
pub fn dump_input<R: Read + Drop>(heap: Global, input: R) -> Result<String, AllocError>
    ensures { IfOk result (λ s. DumpedOfSome (string_bytes s)) }
{
    match read_input(heap, input) {
        Ok(bytes) => dump(heap, bytes.as_slice()),
        Err(fault) => refusal(heap, fault),
    }
}

// The listing of a facts file. Only want of memory is an error: any other refusal is a line of text.
pub fn dump(heap: Global, bytes: &[u8]) -> Result<String, AllocError>
    ensures { IfOk result (λ s. Dumped bytes.now (string_bytes s)) }
{
    match dump_rows(heap, bytes) {
        Ok(rows) => lines(heap, rows.as_slice()),
        Err(fault) => refusal(heap, fault),
    }
}

// The words of a table for a facts file, if it is no longer than a listing takes.
pub(crate) fn words_for(heap: Global, bytes: &[u8]) -> Result<Vec<u32>, ListingFault>
    ensures { IfOk result (λ v. length v.items ≡ WORDS) }
{
    if bytes.len() > MOST_BYTES {
        return Err(ListingFault::Input);
    }
    let words = vec![in heap; 0u32; WORDS]?;
    List::check(words.as_slice(), WIDTH)?;
    Ok(words)
}

// The derived rows of a facts file, on a list of its own.
fn dump_rows(heap: Global, bytes: &[u8]) -> Result<Vec<Row>, ListingFault>
    ensures { IfOk result (λ v. Lists bytes.now v.items) }
{
    let mut words = words_for(heap, bytes)?;
    let mut list = List::make(words.as_mut_slice(), WIDTH);
    rows_of(heap, &mut list, bytes)
}

// The derived rows of a facts file, on any table.
#[tactic(auto, using(crate::proofs::Derives::listings))]
fn rows_of<T: Table>(heap: Global, t: &mut T, bytes: &[u8]) -> Result<Vec<Row>, ListingFault>
    requires { (T.means.bounds t.old).total < most }
    ensures does { MatchResult result (λ v. Listing T.means bytes.now t.old (Ok v.items) t.new) (λ e. Listing T.means bytes.now t.old (Err e) t.new) }
    ensures lists { IfOk result (λ v. Lists bytes.now v.items) }
{
    let mut filling = begin(t)?;
    let _added = load(&mut filling, t, bytes)?;
    let mut running = filling.start();
    let _derived = derive(&mut running, t)?;
    let done = running.settle(t)?;
    Ok(read_derived(heap, &done, t)?)
}
