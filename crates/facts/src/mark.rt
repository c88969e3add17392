// The marks of the fact relations.
ghost use Rattle.std.specs.Prelude.{◌≡◌, ℕ, ◌<◌, ◌≤◌, [], ◌∷◌, MatchOption, ◌≢◌};
ghost use Rattle.facts.specs.Format.{mark};

use rows::relation::FIRST_DERIVED;

// The mark of each fact relation, by its number.
const MARKS: [&str; 18] = [
    "LI", "UR", "CE", "LK", "SB", "LV", "VU", "VD", "VX", "UD", "DD", "CP", "PV", "PA", "PM", "PC",
    "KS", "PL",
];

// The mark of a relation; empty where it has none.
pub fn mark_of(relation: u32) -> &'static str
    ensures fact { relation < 18 → result.now ≡ mark relation }
    ensures none { 18 ≤ relation → result.now ≡ [] }
{
    MARKS.get(relation as usize).copied().unwrap_or("")
}

// The relation that has the mark, or none.
pub fn relation_of(first: u8, second: u8) -> Option<u32>
    ensures { MatchOption result ((k : ℕ) → k < 18 → mark k ≢ first ∷ second ∷ []) (λ k. (k < 18) × (mark k ≡ first ∷ second ∷ [])) }
{
    (0..FIRST_DERIVED).find(|relation| mark_of(*relation).as_bytes() == [first, second].as_slice())
}
