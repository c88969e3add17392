// A quota: a table with maxima of its own, one for each relation, on any table below.
ghost use Rattle.std.specs.Prelude.{◌≡◌};
ghost use Rattle.std.proofs.Common.{ap};
ghost use Rattle.rows.specs.Quotas.{capped};
ghost use Rattle.rows.specs.Tables.{standing};
ghost use Rattle.rows.proofs.Lawfuls.{capped_lawful, capped_steady};

use crate::Table;
use crate::maxima::Maxima;
use rows::answer::{Limits, Outcome, TableFault};
use rows::like::Like;
use rows::row::Row;

#[derive(Drop)]
pub struct Quota<T> {
    below: T,
    own: Maxima,
}

impl<T: Table> Quota<T> {
    // Lays maxima on a table, which may already hold more than they allow.
    pub fn new(below: T, own: Maxima) -> Quota<T>
        ensures below { result.below ≡ below }
        ensures own { result.own ≡ own }
    {
        Quota { below, own }
    }

    // Takes the quota off: the table below, as it now is.
    pub fn into_below(self) -> T
        ensures { result ≡ self.below }
    {
        let Quota { below, own: _ } = self;
        below
    }
}

impl<T: Table> Table for Quota<T> {
    ghost means = { standing (λ q. q.below) T.means (λ q. capped q.own.most (T.means.bounds q.below)) (λ q r t. T.means.grew q.below r t.below × (t.own ≡ q.own)) };

    fn add(&mut self, r: Row) -> Result<Outcome, TableFault> {
        let m = self.below.limits();
        if !r.admissible(m.width) {
            return Err(TableFault::NotAdmissible);
        }
        if self.below.holds(r) {
            return Ok(Outcome::Held);
        }
        if self.below.count_of(r.relation) >= self.own.of(r.relation) {
            return Err(TableFault::Full);
        }
        self.below.add(r)
    }

    fn holds(&self, r: Row) -> bool {
        self.below.holds(r)
    }

    fn next(&self, r: Row) -> Option<Row> {
        self.below.next(r)
    }

    fn next_like(&self, from: Row, like: Like) -> Option<Row> {
        self.below.next_like(from, like)
    }

    fn count(&self) -> u32 {
        self.below.count()
    }

    fn count_of(&self, relation: u32) -> u32 {
        self.below.count_of(relation)
    }

    fn limits(&self) -> Limits {
        let m = self.below.limits();
        Limits {
            width: m.width,
            total: m.total,
            each: self.own.lesser(&m.each),
        }
    }

    ghost steady = { λ q r t g. capped_steady q.own.most t.own.most (T.means.bounds q.below) (T.means.bounds t.below) (ap (λ o. o.most) g.1) (T.Table.steady q.below r t.below g.0) };

    ghost lawful = { λ q. capped_lawful q.own.most (T.means.bounds q.below) (T.means.rows q.below) q.own.forty (T.Table.lawful q.below) };
}
