// A table that counts how often the one below it is asked: for measuring the evaluator. It means what the one below means.
#![tactic(auto)]

ghost use Rattle.std.specs.Prelude.{◌≡◌};
ghost use Rattle.rows.specs.Tables.{standing};

use rows::answer::{Limits, Outcome, TableFault};
use rows::like::Like;
use rows::row::Row;
use std::cell::Cell;
use table::Table;

#[derive(Drop)]
pub struct Counted<T> {
    below: T,
    nexts: Cell<u64>,
    holds: Cell<u64>,
}

impl<T: Table> Counted<T> {
    pub fn new(below: T) -> Counted<T>
        ensures { result.below ≡ below }
    {
        Counted {
            below,
            nexts: Cell::new(0),
            holds: Cell::new(0),
        }
    }

    // How often `next` was called.
    pub fn nexts(&self) -> u64 {
        self.nexts.get()
    }

    // How often `holds` was called.
    pub fn asked(&self) -> u64 {
        self.holds.get()
    }
}

impl<T: Table> Table for Counted<T> {
    ghost means = { standing (λ c. c.below) T.means (λ c. T.means.bounds c.below) (λ c r d. T.means.grew c.below r d.below × (d.nexts ≡ c.nexts) × (d.holds ≡ c.holds)) };

    fn add(&mut self, r: Row) -> Result<Outcome, TableFault> {
        self.below.add(r)
    }

    fn holds(&self, r: Row) -> bool {
        self.holds.set(self.holds.get().saturating_add(1));
        self.below.holds(r)
    }

    fn next(&self, r: Row) -> Option<Row> {
        self.nexts.set(self.nexts.get().saturating_add(1));
        self.below.next(r)
    }

    // The search by `next` alone, whatever the table below has: its calls are what is counted. So it ends as a walk does, with a
    // row past those of the relation, or none.
    fn next_like(&self, from: Row, like: Like) -> Option<Row> {
        let mut at = from;
        while let Some(r) = self.next(like.place(at)) {
            if r.relation != from.relation {
                return None;
            }
            if like.fits(&r) {
                return Some(r);
            }
            at = r.after();
        }
        None
    }

    fn count(&self) -> u32 {
        self.below.count()
    }

    fn count_of(&self, relation: u32) -> u32 {
        self.below.count_of(relation)
    }

    fn limits(&self) -> Limits {
        self.below.limits()
    }

    ghost steady = { λ c r d g. T.Table.steady c.below r d.below g.0 };

    ghost lawful = { λ c. T.Table.lawful c.below };
}
