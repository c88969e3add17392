// Rows added one after another to any table, and under a quota.
ghost use Rattle.std.specs.Prelude.{◌≡◌, length};
ghost use Rattle.rows.specs.Adding.{Filled, taken, went_in};
ghost use Rattle.rows.specs.Quotas.{capped};

use crate::Table;
use crate::maxima::Maxima;
use crate::quota::Quota;
use rows::answer::{Outcome, TableFault};
use rows::row::Row;

// Adds each row of a batch in turn, passes over those that the table refuses, and answers how many went in.
pub fn add_each<T: Table>(t: &mut T, batch: &[Row]) -> usize
    ensures filled { Filled T.means (T.means.bounds t.old) t.old batch.now t.new }
    ensures added { result ≡ length (taken (T.means.bounds t.old) (T.means.rows t.old) batch.now) }
{
    let mut added = 0;
    for r in batch {
        if went_in(t.add(*r)) {
            added += 1;
        }
    }
    added
}

// Adds each row of a batch in turn under a quota, which is then taken off again: the table below, as it then is.
pub fn add_under<T: Table>(below: T, own: Maxima, batch: &[Row]) -> T
    ensures { Filled T.means (capped own.most (T.means.bounds below)) below batch.now result }
{
    let mut quota = Quota::new(below, own);
    let _added = add_each(&mut quota, batch);
    quota.into_below()
}

// The same under two quotas, one on the other; so a pile of any height.
pub fn add_under_both<T: Table>(below: T, lower: Maxima, upper: Maxima, batch: &[Row]) -> T
    ensures { Filled T.means (capped upper.most (capped lower.most (T.means.bounds below))) below batch.now result }
{
    let quota = Quota::new(below, lower);
    let quota = add_under(quota, upper, batch);
    quota.into_below()
}

// A quota on a table that is lent.
pub fn add_under_lent<T: Table>(below: &mut T, own: Maxima, batch: &[Row])
    ensures { Filled T.means (capped own.most (T.means.bounds below.old)) below.old batch.now below.new }
{
    let _lent = add_under(below, own, batch);
}

fn went_in(answer: Result<Outcome, TableFault>) -> bool
    ensures { result ≡ went_in answer }
{
    answer == Ok(Outcome::Added)
}
