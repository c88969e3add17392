// The derived rows of a run that is done, as its reads answer them.
ghost use Rattle.std.specs.Prelude.{◌≡◌, ◌++◌, IfOk, OnOk};
ghost use Rattle.rows.specs.Rows.{of_relation, rest, start};

use analysis::state::Done;
use rows::relation::{FIRST_DERIVED, RELATIONS};
use rows::row::Row;
use std::alloc::{AllocError, Global};
use table::Table;

// The rows of the derived relations, ascending, relation by relation.
#[tactic(auto, using(crate::proofs::InOrder::relation_read))]
pub fn read_derived<T: Table>(heap: Global, done: &Done, t: &T) -> Result<Vec<Row>, AllocError>
    ensures { IfOk result (λ v. v.items ≡ rest (start 18) (T.means.rows t.now)) }
{
    let mut found = Vec::new(heap);
    for relation in FIRST_DERIVED..RELATIONS {
        read_relation(done, t, relation, &mut found)?;
    }
    Ok(found)
}

// Adds the rows of a relation, ascending: each is read from right after the one before it.
#[tactic(auto, using(crate::proofs::InOrder::readings))]
pub fn read_relation<T: Table>(
    done: &Done,
    t: &T,
    relation: u32,
    found: &mut Vec<Row>,
) -> Result<(), AllocError>
    ensures { OnOk result (found.new.items ≡ found.old.items ++ of_relation relation (T.means.rows t.now)) }
{
    let mut from = Row::start(relation);
    while let Some(r) = done.read(t, from) {
        found.push(r)?;
        from = r.after();
    }
    Ok(())
}
