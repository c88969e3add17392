// Atoms: what facts are about. An analysis sees each of them as a number.
ghost use Rattle.std.specs.Prelude.{◌≡◌, ℕ, ◌<◌, ◌++◌, Some, Option, codes, decimal};
ghost use Rattle.std.specs.Option.{option_map};

use std::error::Error;
use std::fmt;

// A kind of atoms: each has one number from 0 to 65,534. Two functions and their laws, which `From` and `TryFrom` have not.
pub trait Atom: Copy {
    ghost number: { Self → ℕ };

    // The atom that has a number, if there is one.
    ghost atom: { ℕ → Option Self };

    // The number of the atom, as rows hold it.
    fn code(self) -> u32
        ensures { result ≡ number self };

    // The atom that has the number, or none.
    fn from_code(code: u32) -> Option<Self>
        ensures { result ≡ atom code };

    ghost below: { (x : Self) → number x < 65535 };

    ghost back: { (x : Self) → atom (number x) ≡ Some x };

    ghost forth: { (n : ℕ) (x : Self) → atom n ≡ Some x → number x ≡ n };
}

// No atom of the kind has the number.
#[derive(Clone, Copy, PartialEq, Eq, Debug)]
pub struct NoAtom {
    pub number: u32,
}

impl fmt::Display for NoAtom {
    ghost output = { λ x. Some (codes "no atom has the number " ++ decimal x.number) };

    fn fmt<W: fmt::Write>(&self, f: &mut fmt::Formatter<W>) -> fmt::Result {
        let number = self.number;
        write!(f, "no atom has the number {number}")
    }
}

impl Error for NoAtom {}

// The five kinds of atoms that facts name.
pub trait FactTypes {
    type Origin: Atom;

    type Loan: Atom;

    type Point: Atom;

    type Variable: Atom;

    type Path: Atom;
}

// Atoms may be told by their numbers: an atom's number gives that atom again.
pub fn atom_again<K: Atom>(x: K) -> Option<K>
    ensures { result ≡ Some x }
{
    K::from_code(x.code())
}

// And a number's atom, if there is one, gives that number again.
pub fn code_again<K: Atom>(code: u32) -> Option<u32>
    ensures { result ≡ option_map (λ _. code) (K.Atom.atom code) }
{
    K::from_code(code).map(|x| x.code())
}
