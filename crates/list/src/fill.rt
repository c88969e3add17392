// A list opened over a caller's words, filled under a quota, and closed again.
ghost use Rattle.std.specs.Prelude.{◌≡◌, [], length};
ghost use Rattle.rows.specs.Adding.{taken};
ghost use Rattle.rows.specs.Quotas.{capped};
ghost use Rattle.rows.specs.Words.{list_limits, written};

use crate::List;
use rows::row::Row;
use table::adding::add_under_lent;
use table::maxima::Maxima;

// Adds each row of a batch in turn. The words then begin with the rows that went in, in their order, and keep what they
// had after those; past a refusal of `List::check` no row goes in.
pub fn fill_words(words: &mut [u32], width: u32, own: Maxima, batch: &[Row])
    ensures { words.new ≡ written (taken (capped own.most (list_limits (length words.old) width)) [] batch.now) words.old }
{
    let mut list = List::make(words, width);
    add_under_lent(&mut list, own, batch);
}
