// A bit table opened over a caller's words, filled under a quota, and closed again.
ghost use Rattle.std.specs.Prelude.{◌≡◌, [], length};
ghost use Rattle.rows.specs.Adding.{taken};
ghost use Rattle.rows.specs.Quotas.{capped};
ghost use Rattle.bit_places.specs.Marked.{with_bits};
ghost use Rattle.bit_places.specs.Opened.{made_limits, made_width, made_words};

use crate::Bits;
use rows::row::Row;
use table::adding::add_under_lent;
use table::maxima::Maxima;

// Adds each row of a batch in turn. Of the words that the table needs, just the bits of the rows that went in are then
// set, and the other words are as they were; past a refusal of `Bits::check` all words are.
// The list's `fill_words` is no case of one generic function with this: here words are cleared and bits set, there rows
// are written over words that stay, so that the two equations share only the rows that went in.
pub fn fill_words(words: &mut [u64], width: u32, own: Maxima, batch: &[Row])
    ensures { words.new ≡ with_bits (made_width (length words.old) width) (taken (capped own.most (made_limits (length words.old) width)) [] batch.now) (made_words words.old width) }
{
    let mut bits = Bits::make(words, width);
    add_under_lent(&mut bits, own, batch);
}
