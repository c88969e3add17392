// A row: a relation number and three codes, which are atom numbers; unused places hold 0.
#![tactic(auto, unfolding(crate::specs::Rows::same, crate::specs::Rows::admissible))]

ghost use Rattle.std.specs.Prelude.{◌≡◌, ◌+◌, ◌<◌};
ghost use Rattle.rows.specs.Relations.{row3};
ghost use Rattle.rows.specs.Rows.{before, same, bump, start, admissible};

use crate::relation::{RELATIONS, places};

// Rows compare as the fields stand: by relation, then code by code.
#[derive(Clone, Copy, PartialEq, Eq, PartialOrd, Ord, Debug, Default)]
pub struct Row {
    pub relation: u32,
    pub a: u32,
    pub b: u32,
    pub c: u32,
}

impl Row {
    pub fn new(relation: u32, a: u32, b: u32, c: u32) -> Row
        ensures { result ≡ row3 relation a b c }
    {
        Row { relation, a, b, c }
    }

    // The first row that a relation could have.
    pub fn start(relation: u32) -> Row
        ensures { result ≡ start relation }
    {
        Row::new(relation, 0, 0, 0)
    }

    // `<`, told by the order of the definitions.
    #[tactic(auto, using(crate::proofs::Derived::by_code, crate::proofs::Derived::by_last), unfolding(crate::specs::Rows::before))]
    pub fn before(&self, other: &Row) -> bool
        ensures { result ≡ before self.now other.now }
    {
        self < other
    }

    // `==`, told likewise.
    pub fn same(&self, other: &Row) -> bool
        ensures { result ≡ same self.now other.now }
    {
        self == other
    }

    // The row right after this one: no row lies between.
    pub fn after(&self) -> Row
        requires { self.now.c + 1 < 4294967296 }
        ensures { result ≡ bump self.now }
    {
        Row {
            c: self.c + 1,
            ..*self
        }
    }

    // Whether a table of the given width may hold the row.
    pub fn admissible(&self, width: u32) -> bool
        ensures { result ≡ admissible width self.now }
    {
        let places = places(self.relation);
        let second = if places == 1 { 1 } else { width };
        let third = if places == 3 { width } else { 1 };
        self.relation < RELATIONS && self.a < width && self.b < second && self.c < third
    }
}
