// A table with one bit for each row that it may hold, in a caller's words. The rows lie ascending, a word's lowest bit
// first.
#![tactic(auto)]

ghost use Rattle.std.specs.Prelude.{◌≡◌, ◌*◌, ◌<◌, ◌≤◌, max, false, [], length, nat_lt, if◌then◌else◌, unwrap_or, IfSome};
ghost use Rattle.bit_places.specs.Places.{base, place};
ghost use Rattle.bit_places.specs.Bit.{bit, raised};
ghost use Rattle.bit_places.specs.Enumerated.{Enumerated};
ghost use Rattle.bit_places.specs.Marked.{marked};
ghost use Rattle.bit_places.specs.Sought.{Low, Sought};
ghost use Rattle.bit_places.specs.Opened.{bit_limits, check_answer, made_live, made_width, made_words};
ghost use Rattle.bit_places.proofs.Openings.{limits_same};
ghost use Rattle.bit_places.proofs.Lawfuls.{bits_lawful};

use crate::places::Layout;
use rows::answer::{Limits, OpenFault, Outcome, TableFault};
use rows::relation::RELATIONS;
use rows::row::Row;
use table::Table;

pub mod fill;
mod places;

// A table whose words did not open has no place.
#[derive(Drop)]
pub struct Bits<'a> {
    words: &'a mut [u64],
    layout: Layout,
    places: usize,
    held: u32,
    ghost sized: { places ≡ (if nat_lt 0 places then base layout.width 40 else 0) },
    ghost small: { places ≤ 1310720 },
    ghost room: { places ≤ 64 * length words.now },
    ghost counted: { length (marked layout.width words.now 0 places) ≡ held },
}

impl<'a> Bits<'a> {
    // Whether the words can be opened as a bit table of that width: whether they have a bit for each admissible row.
    pub fn check(words: &[u64], width: u32) -> Result<(), OpenFault>
        ensures answer { result ≡ check_answer (length words.now) width }
        ensures layout { Enumerated width }
    {
        Layout::over(words.len(), width)?;
        Ok(())
    }

    // A table with no row over the words, of which it clears those that it needs; past a refusal of `check`, one that
    // takes no row and clears no word.
    pub fn make(words: &'a mut [u64], width: u32) -> Bits<'a>
        ensures words { result.words.now ≡ made_words words.old width }
        ensures place { result.words.ghost_name ≡ words.entry.ghost_name }
        ensures live { nat_lt 0 result.places ≡ made_live (length words.old) width }
        ensures width { result.layout.width ≡ made_width (length words.old) width }
        ensures rows { marked result.layout.width result.words.now 0 result.places ≡ [] }
    {
        let Ok(layout) = Layout::over(words.len(), width) else {
            return Bits {
                words,
                layout: Layout::NARROWEST,
                places: 0,
                held: 0,
            };
        };
        words[..layout.words()].fill(0);
        Bits {
            words,
            layout,
            places: layout.base(RELATIONS),
            held: 0,
        }
    }

    // The words, while the table is open.
    pub fn words(&self) -> &[u64]
        ensures { result.now ≡ self.now.words.now }
    {
        &*self.words
    }

    // Whether a bit is set.
    fn read(&self, i: usize) -> bool
        requires { i < 64 * length self.now.words.now }
        ensures { result ≡ bit self.now.words.now i }
    {
        (self.words[i / 64] >> (i % 64)) & 1 == 1
    }

    // The first place from i on whose bit is set.
    fn seek(&self, i: usize) -> Option<usize>
        ensures within { IfSome result (λ j. j < self.now.places) }
        ensures sought { Sought self.now.words.now i self.now.places (unwrap_or result (max i self.now.places)) }
    {
        // An iterator over words would need a case for the first, in which the search begins at a bit.
        let mut m = i;
        while m < self.places {
            let at = m / 64;
            if let Some(low) = low_bit(self.words[at], m % 64) {
                let j = at * 64 + low;
                return (j < self.places).then_some(j);
            }
            m = (at + 1) * 64;
        }
        None
    }

    // Sets a bit that is clear.
    fn raise(&mut self, i: usize)
        requires within { i < self.old.places }
        requires fresh { bit self.old.words.now i ≡ false }
        ensures words { self.new.words.now ≡ raised self.old.words.now i }
        ensures layout { self.new.layout.width ≡ self.old.layout.width }
        ensures places { self.new.places ≡ self.old.places }
        ensures place { self.new.words.ghost_name ≡ self.old.words.ghost_name }
    {
        self.words[i / 64] |= 1 << (i % 64);
        self.held += 1;
    }
}

impl<'a> Table for Bits<'a> {
    ghost means = { record { rows = λ l. marked l.layout.width l.words.now 0 l.places; bounds = λ l. bit_limits (nat_lt 0 l.places) l.layout.width; grew = λ l r t. (t.words.now ≡ raised l.words.now (place l.layout.width r)) × (t.layout.width ≡ l.layout.width) × (t.places ≡ l.places) × (t.words.ghost_name ≡ l.words.ghost_name) } };

    fn add(&mut self, r: Row) -> Result<Outcome, TableFault> {
        if !self.layout.admits(&r) {
            return Err(TableFault::NotAdmissible);
        }
        let i = self.layout.place(&r);
        if i >= self.places {
            return Err(TableFault::Full);
        }
        if self.read(i) {
            return Ok(Outcome::Held);
        }
        self.raise(i);
        Ok(Outcome::Added)
    }

    fn holds(&self, r: Row) -> bool {
        if !self.layout.admits(&r) {
            return false;
        }
        let i = self.layout.place(&r);
        i < self.places && self.read(i)
    }

    fn next(&self, r: Row) -> Option<Row> {
        let i = self.seek(self.layout.place(&r))?;
        Some(self.layout.row_at(i))
    }

    fn count(&self) -> u32 {
        self.held
    }

    fn limits(&self) -> Limits {
        Limits {
            width: self.layout.width(),
            total: self.places as u32,
            each: if self.places > 0 {
                self.layout.each()
            } else {
                [0; 40]
            },
        }
    }

    ghost steady = { λ l r t g. limits_same t.places l.places t.layout.width l.layout.width g.2 g.1 };

    ghost lawful = { λ l. bits_lawful l.words.now l.layout.width l.places (nat_lt 0 l.places) l.layout.narrow l.sized };
}

// The lowest bit of a word that is set, from bit k on.
fn low_bit(word: u64, k: usize) -> Option<usize>
    requires { k < 64 }
    ensures within { IfSome result (λ j. j < 64) }
    ensures low { Low word k (unwrap_or result 64) }
{
    let rest = word >> k;
    if rest == 0 {
        None
    } else {
        Some(k + rest.trailing_zeros() as usize)
    }
}
