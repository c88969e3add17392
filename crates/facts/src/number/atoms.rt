// Making a number, and its meaning as an atom.
ghost use Rattle.std.specs.Prelude.{◌≡◌};
ghost use Rattle.std.specs.Option.{ok_or};
ghost use Rattle.facts.specs.Numbers.{number_of};
ghost use Rattle.facts.specs.Atoms.{number_made};
ghost use Rattle.std.proofs.Common.{rules};

use crate::atom::{Atom, FactTypes, NoAtom};
use crate::number::Number;
use std::marker::PhantomData;

// Numbers from this one on are no atoms.
const LIMIT: u32 = 65535;

impl Number {
    // None above 65,534. (`then_some` would make the number before the test that its range rests on.)
    pub fn new(value: u32) -> Option<Number>
        ensures { result ≡ number_of value }
    {
        if value < LIMIT {
            Some(Number { value })
        } else {
            None
        }
    }

    pub fn value(self) -> u32
        ensures { result ≡ self.value }
    {
        self.value
    }
}

impl From<Number> for u32 {
    ghost from_gives = { λ x r. r ≡ x.value };

    fn from(x: Number) -> u32 {
        x.value()
    }
}

impl TryFrom<u32> for Number {
    type Error = NoAtom;

    ghost try_from_gives = { λ n r. r ≡ ok_or (number_of n) (record { number = n }) };

    fn try_from(value: u32) -> Result<Number, NoAtom> {
        Number::new(value).ok_or(NoAtom { number: value })
    }
}

impl Atom for Number {
    ghost number = { λ x. x.value };

    ghost atom = { number_of };

    ghost below = { Prim.search rules };

    ghost back = { number_made };

    ghost forth = { Prim.search rules };

    fn code(self) -> u32 {
        Number::value(self)
    }

    fn from_code(code: u32) -> Option<Number> {
        Number::new(code)
    }
}

// Points of one kind, bare numbers for the other four kinds.
pub struct Kinds<P>(pub PhantomData<P>);

impl<P: Atom> FactTypes for Kinds<P> {
    type Origin = Number;

    type Loan = Number;

    type Point = P;

    type Variable = Number;

    type Path = Number;
}

// All five kinds as bare numbers.
pub type Numbers = Kinds<Number>;
