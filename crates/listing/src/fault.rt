// Why a listing cannot be made.
ghost use Rattle.std.specs.Prelude.{◌≡◌, ◌++◌, Some, IfOk, string_bytes, codes};
ghost use Rattle.listing.specs.declared.fault.ListingFault.TheVariants.{Opening, Reading, Running, NoMemory};
ghost use Rattle.listing.specs.Faults.{listing_number};
ghost use Rattle.listing.specs.Text.{fault_words};

use analysis::fault::RunFault;
use analysis::state::Unfinished;
use facts::record::ReadFault;
use rows::answer::OpenFault;
use std::alloc::{AllocError, AllocFailed, Global};
use std::error::Error;
use std::fmt;

#[derive(Clone, Copy, PartialEq, Eq, Debug)]
pub enum ListingFault {
    // The input is longer than a listing takes, or could not be read.
    Input,
    // The words cannot be opened as a table.
    Opening(OpenFault),
    // The file has no record where one should stand.
    Reading(ReadFault),
    // The run refused the fact whose record stands at the offset.
    Putting { offset: usize, fault: RunFault },
    // The run refused another call.
    Running(RunFault),
    // There is no memory. This is no refusal, and has no number.
    NoMemory,
}

impl ListingFault {
    // The number of a refusal.
    pub fn number(self) -> Option<u32>
        ensures { result ≡ listing_number self }
    {
        match self {
            ListingFault::Input => Some(12),
            ListingFault::Opening(fault) => Some(fault.number()),
            ListingFault::Reading(fault) => Some(fault.number()),
            ListingFault::Putting { offset: _, fault } => Some(fault.number()),
            ListingFault::Running(fault) => Some(fault.number()),
            ListingFault::NoMemory => None,
        }
    }
}

impl From<OpenFault> for ListingFault {
    ghost from_gives = { λ x r. r ≡ Opening x };

    fn from(fault: OpenFault) -> ListingFault {
        ListingFault::Opening(fault)
    }
}

impl From<ReadFault> for ListingFault {
    ghost from_gives = { λ x r. r ≡ Reading x };

    fn from(fault: ReadFault) -> ListingFault {
        ListingFault::Reading(fault)
    }
}

impl From<RunFault> for ListingFault {
    ghost from_gives = { λ x r. r ≡ Running x };

    fn from(fault: RunFault) -> ListingFault {
        ListingFault::Running(fault)
    }
}

impl From<Unfinished> for ListingFault {
    ghost from_gives = { λ x r. r ≡ Running x.fault };

    fn from(unfinished: Unfinished) -> ListingFault {
        ListingFault::Running(unfinished.fault)
    }
}

impl From<AllocError> for ListingFault {
    ghost from_gives = { λ _ r. r ≡ NoMemory };

    fn from(_e: AllocError) -> ListingFault {
        ListingFault::NoMemory
    }
}

impl<T: Drop> From<AllocFailed<T>> for ListingFault {
    ghost from_gives = { λ _ r. r ≡ NoMemory };

    fn from(_e: AllocFailed<T>) -> ListingFault {
        ListingFault::NoMemory
    }
}

// The line of a refusal: where the fact's record stands, or the relation that was being derived.
impl fmt::Display for ListingFault {
    ghost output = { λ x. Some (fault_words x) };

    fn fmt<W: fmt::Write>(&self, f: &mut fmt::Formatter<W>) -> fmt::Result {
        let Some(number) = self.number() else {
            return write!(f, "no memory");
        };
        match *self {
            ListingFault::Reading(fault) => write!(f, "{fault}"),
            ListingFault::Putting { offset, fault: _ } => write!(f, "refused {number} at {offset}"),
            ListingFault::Running(RunFault::Stopped(stop)) => {
                let relation = stop.relation;
                write!(f, "refused {number} in {relation}")
            }
            ListingFault::Running(_)
            | ListingFault::Input
            | ListingFault::Opening(_)
            | ListingFault::NoMemory => write!(f, "refused {number}"),
        }
    }
}

impl Error for ListingFault {}

// The one line of a refusal. Want of memory stays an error.
pub(crate) fn refusal(heap: Global, fault: ListingFault) -> Result<String, AllocError>
    ensures { IfOk result (λ s. string_bytes s ≡ fault_words fault ++ codes "\n") }
{
    match fault {
        ListingFault::NoMemory => Err(AllocError),
        _ => format!(in heap; "{fault}\n"),
    }
}
