// A facts file read from outside.
use crate::fault::ListingFault;
use std::alloc::Global;
use std::io::{ErrorKind, Read};

// A listing takes no file that is longer: 1 MiB.
pub const MOST_BYTES: usize = 1_048_576;

// The whole input. One byte past the limit is enough to know that it is too long.
pub fn read_input<R: Read + Drop>(heap: Global, input: R) -> Result<Vec<u8>, ListingFault> {
    let mut bytes = Vec::new(heap);
    input
        .take(MOST_BYTES as u64 + 1)
        .read_to_end(&mut bytes)
        .map_err(|e| match e.kind() {
            ErrorKind::OutOfMemory => ListingFault::NoMemory,
            _ => ListingFault::Input,
        })?;
    Ok(bytes)
}
