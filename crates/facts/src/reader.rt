// The reader of facts files. It borrows the bytes, and takes them apart record by record.
ghost use Rattle.std.specs.Prelude.{◌≡◌, ℕ, ◌+◌, ◌*◌, ◌^◌, ◌<◌, true, List, ◌++◌, length, Option, Result, MatchOption};
ghost use Rattle.rows.specs.Rows.{admissible, places};
ghost use Rattle.facts.specs.Format.{two_bytes, bytes_of, codes_of, Answered, Same};
ghost use Rattle.facts.specs.declared.record.Record.{Record};
ghost use Rattle.facts.specs.declared.record.ReadFault.{ReadFault};

use crate::mark::relation_of;
use crate::record::{ReadFault, Record};
use rows::relation;
use rows::row::Row;

// The bytes that are left, and how many stood before them. It is no `Iterator`: it gives a refusal again and again, so a loop
// over one would not end.
#[derive(Drop)]
pub struct Reader<'a> {
    left: &'a [u8],
    offset: usize,
    ghost fits: { offset + length left.now < 2 ^ 64 },
}

impl<'a> Reader<'a> {
    pub fn new(bytes: &'a [u8]) -> Reader<'a>
        ensures left { result.left.now ≡ bytes.now }
        ensures offset { result.offset ≡ 0 }
    {
        Reader {
            left: bytes,
            offset: 0,
        }
    }

    // The next record, or none at the end. After a refusal the reader stays where it is.
    pub fn next_record(&mut self) -> Result<Option<Record>, ReadFault>
        ensures stands { Answered self.old.offset self.old.left.now result self.new.offset self.new.left.now }
        ensures only { (s : Result (Option Record) ReadFault) (at : ℕ) (bytes : List ℕ) → Answered self.old.offset self.old.left.now s at bytes → Same result self.new.offset self.new.left.now s at bytes }
    {
        let offset = self.offset;
        match self.left {
            [] => Ok(None),
            [_] => Err(ReadFault::LoneByte { offset }),
            [first, second, codes @ ..] => {
                let Some(relation) = relation_of(*first, *second) else {
                    return Err(ReadFault::UnknownMark { offset });
                };
                let Some((row, left)) = row_of(relation, codes) else {
                    return Err(ReadFault::Cut { offset });
                };
                self.offset = offset + (self.left.len() - left.len());
                self.left = left;
                Ok(Some(Record { offset, row }))
            }
        }
    }
}

// The row of the relation whose codes the bytes begin with, and the bytes after them.
fn row_of(relation: u32, bytes: &[u8]) -> Option<(Row, &[u8])>
    requires { relation < 18 }
    ensures { MatchOption result (length bytes.now < 2 * places relation) (λ x. (x.0.relation ≡ relation) × (admissible 65536 x.0 ≡ true) × (bytes.now ≡ bytes_of (codes_of x.0) ++ x.1.now)) }
{
    let places = relation::places(relation);
    let (a, rest) = code(bytes)?;
    if places == 1 {
        return Some((Row::new(relation, a, 0, 0), rest));
    }
    let (b, rest) = code(rest)?;
    if places == 2 {
        return Some((Row::new(relation, a, b, 0), rest));
    }
    let (c, rest) = code(rest)?;
    Some((Row::new(relation, a, b, c), rest))
}

// The code that the bytes begin with, low byte first, and the bytes after it.
fn code(bytes: &[u8]) -> Option<(u32, &[u8])>
    ensures { MatchOption result (length bytes.now < 2) (λ x. (x.0 < 65536) × (bytes.now ≡ two_bytes x.0 ++ x.1.now)) }
{
    let ([low, high], rest) = bytes.split_first_chunk::<2>()?;
    Some((u32::from(u16::from_le_bytes([*low, *high])), rest))
}
