// A whole run on a list over a caller's words.
ghost use Rattle.std.specs.Prelude.{IfOk};
ghost use Rattle.runs.specs.Promise.{PromisedOnWords};

use crate::play::play;
use crate::script::{Event, Step};
use facts::atom::FactTypes;
use list::List;
use std::alloc::{AllocError, Global};

// Plays a script on a list over the words. The words then begin with the rows of the run in the order of their adding, and
// keep what they had after those; of these rows, the promise over whole runs holds.
pub fn play_on_words<F: FactTypes>(
    heap: Global,
    words: &mut [u32],
    width: u32,
    script: &[Step<F>],
) -> Result<Vec<Event>, AllocError>
    ensures { IfOk result (λ log. PromisedOnWords log.items words.old words.new) }
{
    let mut table = List::make(words, width);
    play(heap, &mut table, script)
}
