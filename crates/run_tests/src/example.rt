// The example of eight facts, from which 22 rows are derived.
ghost use Rattle.std.specs.Prelude.{◌≡◌, [], ◌∷◌};
ghost use Rattle.rows.specs.Relations.{loan_issued_at, cfg_edge, subset_base, loan_invalidated_at, var_used_at, use_of_var_derefs_origin};

use rows::relation::{
    CFG_EDGE, LOAN_INVALIDATED_AT, LOAN_ISSUED_AT, SUBSET_BASE, USE_OF_VAR_DEREFS_ORIGIN,
    VAR_USED_AT,
};
use rows::row::Row;

pub fn facts() -> [Row; 8]
    ensures { result ≡ loan_issued_at 0 0 0 ∷ cfg_edge 0 1 ∷ cfg_edge 1 2 ∷ subset_base 0 1 0 ∷ subset_base 1 2 0 ∷ loan_invalidated_at 2 0 ∷ var_used_at 0 2 ∷ use_of_var_derefs_origin 0 2 ∷ [] }
{
    [
        Row::new(LOAN_ISSUED_AT, 0, 0, 0),
        Row::new(CFG_EDGE, 0, 1, 0),
        Row::new(CFG_EDGE, 1, 2, 0),
        Row::new(SUBSET_BASE, 0, 1, 0),
        Row::new(SUBSET_BASE, 1, 2, 0),
        Row::new(LOAN_INVALIDATED_AT, 2, 0, 0),
        Row::new(VAR_USED_AT, 0, 2, 0),
        Row::new(USE_OF_VAR_DEREFS_ORIGIN, 0, 2, 0),
    ]
}
