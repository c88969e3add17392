// Rows as text, a line to a row.
ghost use Rattle.std.specs.Prelude.{◌≡◌, Some, IfOk, string_bytes};
ghost use Rattle.listing.specs.Text.{line_of, lines_of};

use rows::relation::places;
use rows::row::Row;
use std::alloc::{AllocError, Global};
use std::fmt;

// A row that shows as its line: the relation's number and the row's codes, as many as the relation has places.
#[derive(Clone, Copy, PartialEq, Eq, Debug)]
pub struct Line(pub Row);

impl fmt::Display for Line {
    ghost output = { λ x. Some (line_of x.0) };

    fn fmt<W: fmt::Write>(&self, f: &mut fmt::Formatter<W>) -> fmt::Result {
        let Row { relation, a, b, c } = self.0;
        match places(relation) {
            1 => writeln!(f, "{relation} {a}"),
            2 => writeln!(f, "{relation} {a} {b}"),
            _ => writeln!(f, "{relation} {a} {b} {c}"),
        }
    }
}

// A line for each row, in their order.
#[tactic(auto, using(crate::proofs::Texts::lines_more))]
pub fn lines(heap: Global, rows: &[Row]) -> Result<String, AllocError>
    ensures { IfOk result (λ s. string_bytes s ≡ lines_of rows.now) }
{
    let mut text = String::new(heap);
    for row in rows {
        write!(text, "{}", Line(*row))?;
    }
    Ok(text)
}
