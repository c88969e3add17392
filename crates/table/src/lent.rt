// A table that is lent is a table, so that a quota can stand on one.
ghost use Rattle.std.specs.Prelude.{◌≡◌};
ghost use Rattle.rows.specs.Tables.{standing};

use crate::Table;
use rows::answer::{Limits, Outcome, TableFault};
use rows::like::Like;
use rows::row::Row;

impl<'b, T: Table> Table for &'b mut T {
    ghost means = { standing (λ t. t.now) T.means (λ t. T.means.bounds t.now) (λ s r t. T.means.grew s.now r t.now × (t.ghost_name ≡ s.ghost_name)) };

    fn add(&mut self, r: Row) -> Result<Outcome, TableFault> {
        (**self).add(r)
    }

    fn holds(&self, r: Row) -> bool {
        (**self).holds(r)
    }

    fn next(&self, r: Row) -> Option<Row> {
        (**self).next(r)
    }

    fn next_like(&self, from: Row, like: Like) -> Option<Row> {
        (**self).next_like(from, like)
    }

    fn count(&self) -> u32 {
        (**self).count()
    }

    fn count_of(&self, relation: u32) -> u32 {
        (**self).count_of(relation)
    }

    fn limits(&self) -> Limits {
        (**self).limits()
    }

    ghost steady = { λ s r t g. T.Table.steady s.now r t.now g.0 };

    ghost lawful = { λ t. T.Table.lawful t.now };
}
