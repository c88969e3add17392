// Making a point, and its meaning as an atom.
ghost use Rattle.std.specs.Prelude.{◌≡◌};
ghost use Rattle.facts.specs.Points.{point_at, point_number, point_of};
ghost use Rattle.std.proofs.Common.{rules};
ghost use Rattle.facts.specs.Atoms.{point_back};

use crate::atom::Atom;
use crate::number::atoms::Kinds;
use crate::point::Point;

impl Point {
    // None unless the block is at most 1,022, the statement at most 31 and the half 0 or 1. (As at a number, the test comes first.)
    pub fn new(block: u32, statement: u32, half: u32) -> Option<Point>
        ensures { result ≡ point_at block statement half }
    {
        if block <= 1022 && statement <= 31 && half <= 1 {
            Some(Point {
                block,
                statement,
                half,
            })
        } else {
            None
        }
    }

    pub fn block(self) -> u32
        ensures { result ≡ self.block }
    {
        self.block
    }

    pub fn statement(self) -> u32
        ensures { result ≡ self.statement }
    {
        self.statement
    }

    pub fn half(self) -> u32
        ensures { result ≡ self.half }
    {
        self.half
    }
}

impl Atom for Point {
    ghost number = { point_number };

    ghost atom = { point_of };

    ghost below = { Prim.search rules };

    ghost back = { point_back };

    ghost forth = { Prim.search rules };

    fn code(self) -> u32 {
        let Point {
            block,
            statement,
            half,
        } = self;
        block * 64 + statement * 2 + half
    }

    fn from_code(code: u32) -> Option<Point> {
        Point::new(code / 64, code % 64 / 2, code % 2)
    }
}

// Program points for the points, bare numbers for the other kinds.
pub type Program = Kinds<Point>;
