// A whole facts file at once.
ghost use Rattle.std.specs.Prelude.{◌≡◌, List, length, Some, Ok, MatchResult};
ghost use Rattle.std.specs.List.{AllByRecursion};
ghost use Rattle.rows.specs.declared.row.Row.{Row};
ghost use Rattle.facts.specs.declared.whole.WholeFault.TheVariants.{Unread, NoMemory};
ghost use Rattle.facts.specs.Format.{Fact, file, records};
ghost use Rattle.facts.specs.Text.{whole_words};
ghost use Rattle.facts.specs.Whole.{ReadWhole, CountedWhole, Stopped};

use crate::reader::Reader;
use crate::record::{ReadFault, Record};
use std::alloc::{AllocFailed, Global};
use std::error::Error;
use std::fmt;

#[derive(Clone, Copy, PartialEq, Eq, Debug)]
pub enum WholeFault {
    // The reader refused.
    Unread(ReadFault),
    // There is no memory for the records.
    NoMemory,
}

impl From<ReadFault> for WholeFault {
    ghost from_gives = { λ x r. r ≡ Unread x };

    fn from(fault: ReadFault) -> WholeFault {
        WholeFault::Unread(fault)
    }
}

impl<T: Drop> From<AllocFailed<T>> for WholeFault {
    ghost from_gives = { λ _ r. r ≡ NoMemory };

    fn from(_e: AllocFailed<T>) -> WholeFault {
        WholeFault::NoMemory
    }
}

impl fmt::Display for WholeFault {
    ghost output = { λ x. Some (whole_words x) };

    fn fmt<W: fmt::Write>(&self, f: &mut fmt::Formatter<W>) -> fmt::Result {
        match self {
            WholeFault::Unread(fault) => write!(f, "{fault}"),
            WholeFault::NoMemory => write!(f, "no memory"),
        }
    }
}

impl Error for WholeFault {}

// Every record of a file. Reading is exact both ways: the file of some facts gives just those facts, each with its offset,
// and bytes that are read to their end are the file of the facts that were read.
pub fn read_all(heap: Global, bytes: &[u8]) -> Result<Vec<Record>, WholeFault>
    ensures stands { MatchResult result (λ v. ReadWhole bytes.now v.items) (λ e. Stopped bytes.now e) }
    ensures exact { (rows : List Row) → AllByRecursion Fact rows → bytes.now ≡ file rows → MatchResult result (λ v. v.items ≡ records 0 rows) (λ e. e ≡ NoMemory) }
{
    let mut reader = Reader::new(bytes);
    let mut found = Vec::new(heap);
    while let Some(record) = reader.next_record()? {
        found.push(record)?;
    }
    Ok(found)
}

// How many records a file has. It allocates nothing, so it refuses only what the reader refuses. (One loop for both functions
// would take a closure and another invariant for these three lines.)
pub fn count_records(bytes: &[u8]) -> Result<usize, ReadFault>
    ensures stands { MatchResult result (λ n. CountedWhole bytes.now n) (λ fault. Stopped bytes.now (Unread fault)) }
    ensures exact { (rows : List Row) → AllByRecursion Fact rows → bytes.now ≡ file rows → result ≡ Ok (length rows) }
{
    let mut reader = Reader::new(bytes);
    let mut count = 0;
    while let Some(_) = reader.next_record()? {
        count += 1;
    }
    Ok(count)
}
