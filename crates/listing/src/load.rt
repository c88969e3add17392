// The facts of a file, put into a table record by record.
ghost use Rattle.std.specs.Prelude.{Some};
ghost use Rattle.listing.specs.Loading.{Step, Loading};
ghost use Rattle.listing.specs.Words.{fact_words};

use crate::fault::ListingFault;
use crate::words::{Named, word_of};
use analysis::state::Filling;
use facts::mark::mark_of;
use facts::reader::Reader;
use facts::record::Record;
use rows::answer::Outcome;
use std::fmt;
use table::Table;

// A record, and what the put of its row answered.
#[derive(Clone, Copy, PartialEq, Eq, Debug)]
pub struct Loaded {
    pub record: Record,
    pub outcome: Outcome,
}

// Where the record stands, its row, and whether the table held it.
impl fmt::Display for Loaded {
    ghost output = { λ x. Some (fact_words x) };

    fn fmt<W: fmt::Write>(&self, f: &mut fmt::Formatter<W>) -> fmt::Result {
        let Record { offset, row } = self.record;
        let mark = mark_of(row.relation);
        let named = Named(row);
        let answer = word_of(self.outcome);
        write!(f, "at {offset}: {mark} {named}: {answer}")
    }
}

// Reads the next record and puts its row; none at the end of the file.
#[tactic(auto, using(crate::proofs::Loads::step_took))]
pub fn load_next<T: Table>(
    filling: &mut Filling,
    reader: &mut Reader<'_>,
    t: &mut T,
) -> Result<Option<Loaded>, ListingFault>
    ensures { Step T.means reader.old.offset reader.old.left.now t.old result reader.new.offset reader.new.left.now t.new }
{
    let Some(record) = reader.next_record()? else {
        return Ok(None);
    };
    let outcome = filling
        .put(t, record.row)
        .map_err(|fault| ListingFault::Putting {
            offset: record.offset,
            fault,
        })?;
    Ok(Some(Loaded { record, outcome }))
}

// Puts the facts of a file, each before the next is read. Answers how many went in: a fact that was held already does not
// count.
#[tactic(auto, using(crate::proofs::Loads::loads))]
pub fn load<T: Table>(filling: &mut Filling, t: &mut T, bytes: &[u8]) -> Result<usize, ListingFault>
    ensures { Loading T.means bytes.now t.old result t.new }
{
    let mut reader = Reader::new(bytes);
    let mut added = 0;
    while let Some(loaded) = load_next(filling, &mut reader, t)? {
        if loaded.outcome == Outcome::Added {
            added += 1;
        }
    }
    Ok(added)
}
