// The bytes of a case's file, from its lines.
use std::alloc::AllocError;
use std::error::Error;
use std::fmt;
use std::num::ParseIntError;

#[derive(Clone, Copy, PartialEq, Eq, Debug)]
pub enum CaseFault {
    // A word is neither a mark, a code of 16 bits nor a byte in hexadecimal.
    Word,
    NoMemory,
}

impl From<AllocError> for CaseFault {
    fn from(_e: AllocError) -> CaseFault {
        CaseFault::NoMemory
    }
}

impl From<ParseIntError> for CaseFault {
    fn from(_e: ParseIntError) -> CaseFault {
        CaseFault::Word
    }
}

impl fmt::Display for CaseFault {
    fn fmt<W: fmt::Write>(&self, f: &mut fmt::Formatter<W>) -> fmt::Result {
        match self {
            CaseFault::Word => write!(f, "not a fact"),
            CaseFault::NoMemory => write!(f, "no memory"),
        }
    }
}

impl Error for CaseFault {}

// Adds the bytes that a line stands for: those of a fact's record, or those that are written out after a `!`.
pub fn add_line(file: &mut Vec<u8>, line: &str) -> Result<(), CaseFault> {
    let mut words = line.split_whitespace();
    match words.next() {
        None => {}
        Some("!") => {
            for word in words {
                file.extend_from_slice(&[u8::from_str_radix(word, 16)?])?;
            }
        }
        Some(mark) => {
            file.extend_from_slice(mark.as_bytes())?;
            for word in words {
                file.extend_from_slice(&word.parse::<u16>()?.to_le_bytes())?;
            }
        }
    }
    Ok(())
}
