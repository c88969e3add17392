// What a reader of facts answers.
ghost use Rattle.std.specs.Prelude.{◌≡◌, Some};
ghost use Rattle.facts.specs.Format.{fault_number, fault_offset};
ghost use Rattle.facts.specs.Text.{read_words};

use rows::row::Row;
use std::error::Error;
use std::fmt;

// A fact of the file, and where its mark stands.
#[derive(Clone, Copy, PartialEq, Eq, Debug)]
pub struct Record {
    pub offset: usize,
    pub row: Row,
}

// Why a reader cannot go on; the offset is that of the mark.
#[derive(Clone, Copy, PartialEq, Eq, Debug)]
pub enum ReadFault {
    // One byte is left, and a mark has two.
    LoneByte { offset: usize },
    // No relation has the mark.
    UnknownMark { offset: usize },
    // The codes of the record are cut short.
    Cut { offset: usize },
}

impl ReadFault {
    // The number that a listing prints: 8 for an unknown mark, 9 where bytes are missing.
    pub fn number(self) -> u32
        ensures { result ≡ fault_number self }
    {
        match self {
            ReadFault::UnknownMark { offset: _ } => 8,
            ReadFault::LoneByte { offset: _ } | ReadFault::Cut { offset: _ } => 9,
        }
    }

    // Where the mark of the record that cannot be read stands, or would.
    pub fn offset(self) -> usize
        ensures { result ≡ fault_offset self }
    {
        match self {
            ReadFault::LoneByte { offset }
            | ReadFault::UnknownMark { offset }
            | ReadFault::Cut { offset } => offset,
        }
    }
}

impl fmt::Display for ReadFault {
    ghost output = { λ x. Some (read_words x) };

    fn fmt<W: fmt::Write>(&self, f: &mut fmt::Formatter<W>) -> fmt::Result {
        let number = self.number();
        let offset = self.offset();
        write!(f, "refused {number} at {offset}")
    }
}

impl Error for ReadFault {}
