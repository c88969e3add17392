// Rows in words: the name of the relation, and what each code is.
ghost use Rattle.std.specs.Prelude.{◌≡◌, [], map, Some, slice_index_or};
ghost use Rattle.listing.specs.Words.{name, kinds, named, answer, tells_error};

use rows::answer::Outcome;
use rows::relation::*;
use rows::row::Row;
use std::fmt;

// The name of a relation; empty past the forty.
#[tactic(auto, unfolding(crate::specs::Words::name))]
pub fn name_of(relation: u32) -> &'static str
    ensures { result.now ≡ name relation }
{
    word_at(NAMES.as_slice(), relation)
}

// The word that stands at a place, or an empty one. It takes any words, since the proof reads none of them.
fn word_at(words: &[&'static str], place: u32) -> &'static str
    ensures { result.now ≡ slice_index_or (map (λ s. s.now) words.now) place [] }
{
    words.get(place as usize).copied().unwrap_or("")
}

// What the codes of a relation's rows are. Relations of fewer places leave the last ones empty.
#[tactic(auto, unfolding(crate::specs::Words::kinds))]
fn kinds_of(relation: u32) -> [&'static str; 3]
    ensures { map (λ s. s.now) result ≡ kinds relation }
{
    match relation {
        LOAN_ISSUED_AT | ORIGIN_CONTAINS_LOAN_ON_ENTRY => ["origin", "loan", "point"],
        SUBSET_BASE | SUBSET | SUBSET_ERRORS => ["origin", "origin", "point"],
        UNIVERSAL_REGION => ["origin", "", ""],
        CFG_EDGE => ["point", "point", ""],
        LOAN_INVALIDATED_AT => ["point", "loan", ""],
        LOAN_KILLED_AT | LOAN_LIVE_AT | ERRORS | POTENTIAL_ERRORS => ["loan", "point", ""],
        PLACEHOLDER | KNOWN_CONTAINS | ORIGIN_CONTAINS_LOAN_ANYWHERE => ["origin", "loan", ""],
        ORIGIN_LIVE_ON_ENTRY => ["origin", "point", ""],
        CHILD_PATH => ["child path", "parent path", ""],
        ANCESTOR_PATH => ["ancestor path", "path", ""],
        PATH_IS_VAR | PATH_BEGINS_WITH_VAR => ["path", "variable", ""],
        USE_OF_VAR_DEREFS_ORIGIN | DROP_OF_VAR_DEREFS_ORIGIN => ["variable", "origin", ""],
        KNOWN_PLACEHOLDER_SUBSET | KNOWN_PLACEHOLDER_SUBSET_CLOSED | POTENTIAL_SUBSET_ERRORS => [
            "origin", "origin", "",
        ],
        VAR_USED_AT
        | VAR_DEFINED_AT
        | VAR_DROPPED_AT
        | VAR_MAYBE_PARTLY_INITIALIZED_ON_EXIT
        | VAR_LIVE_ON_ENTRY
        | VAR_DROP_LIVE_ON_ENTRY => ["variable", "point", ""],
        _ => ["path", "point", ""],
    }
}

// A row that shows as its relation's name and its codes, each with what it is.
#[derive(Clone, Copy, PartialEq, Eq, Debug)]
pub struct Named(pub Row);

impl fmt::Display for Named {
    ghost output = { λ x. Some (named x.0) };

    fn fmt<W: fmt::Write>(&self, f: &mut fmt::Formatter<W>) -> fmt::Result {
        let Row { relation, a, b, c } = self.0;
        let name = name_of(relation);
        let [first, second, third] = kinds_of(relation);
        match places(relation) {
            1 => write!(f, "{name}({first} {a})"),
            2 => write!(f, "{name}({first} {a}, {second} {b})"),
            _ => write!(f, "{name}({first} {a}, {second} {b}, {third} {c})"),
        }
    }
}

// Whether a row was new.
pub fn word_of(outcome: Outcome) -> &'static str
    ensures { result.now ≡ answer outcome }
{
    match outcome {
        Outcome::Added => "added",
        Outcome::Held => "held already",
    }
}

// The relations whose rows are errors.
pub fn is_error(relation: u32) -> bool
    ensures { result ≡ tells_error relation }
{
    matches!(
        relation,
        MOVE_ERROR | ERRORS | SUBSET_ERRORS | POTENTIAL_ERRORS | POTENTIAL_SUBSET_ERRORS
    )
}

// An error that shows with what it means.
#[derive(Clone, Copy, PartialEq, Eq, Debug)]
pub struct Explained(pub Row);

impl fmt::Display for Explained {
    fn fmt<W: fmt::Write>(&self, f: &mut fmt::Formatter<W>) -> fmt::Result {
        let named = Named(self.0);
        let Row { relation, a, b, c } = self.0;
        match relation {
            MOVE_ERROR => write!(
                f,
                "{named}: path {a} is accessed at point {b}, and some way there has moved it and not assigned it again"
            ),
            ERRORS => write!(
                f,
                "{named}: at point {b} something is done that loan {a} forbids, while a reference that may stem from loan {a} is still used later"
            ),
            SUBSET_ERRORS => write!(
                f,
                "{named}: at point {c} what origin {a} refers to flows into origin {b}, and the signature does not say that it may"
            ),
            POTENTIAL_ERRORS => write!(
                f,
                "{named}: the quick analysis, which does not follow where a loan flows, cannot rule out an error of loan {a} at point {b}"
            ),
            _ => write!(
                f,
                "{named}: the quick analysis cannot rule out that what origin {a} refers to flows into origin {b}, which the signature does not allow"
            ),
        }
    }
}
