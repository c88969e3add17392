ghost use Rattle.std.specs.Prelude.{◌≡◌};
ghost use Rattle.rows.specs.Rows.{places};

// The forty relations, by number. 0 to 17 are the facts, in the order of `AllFacts`; 18 to 39 are derived, in the
// order in which they are completed. They are numbers and no enum, since a row may name any number: each call says what it
// answers past the forty, and a type that rules those out would ask more of callers.

pub const RELATIONS: u32 = 40;

// Relations from this one on are derived.
pub const FIRST_DERIVED: u32 = 18;

pub const LOAN_ISSUED_AT: u32 = 0;

pub const UNIVERSAL_REGION: u32 = 1;

pub const CFG_EDGE: u32 = 2;

pub const LOAN_KILLED_AT: u32 = 3;

pub const SUBSET_BASE: u32 = 4;

pub const LOAN_INVALIDATED_AT: u32 = 5;

pub const VAR_USED_AT: u32 = 6;

pub const VAR_DEFINED_AT: u32 = 7;

pub const VAR_DROPPED_AT: u32 = 8;

pub const USE_OF_VAR_DEREFS_ORIGIN: u32 = 9;

pub const DROP_OF_VAR_DEREFS_ORIGIN: u32 = 10;

pub const CHILD_PATH: u32 = 11;

pub const PATH_IS_VAR: u32 = 12;

pub const PATH_ASSIGNED_AT_BASE: u32 = 13;

pub const PATH_MOVED_AT_BASE: u32 = 14;

pub const PATH_ACCESSED_AT_BASE: u32 = 15;

pub const KNOWN_PLACEHOLDER_SUBSET: u32 = 16;

pub const PLACEHOLDER: u32 = 17;

pub const ANCESTOR_PATH: u32 = 18;

pub const PATH_MOVED_AT: u32 = 19;

pub const PATH_ASSIGNED_AT: u32 = 20;

pub const PATH_ACCESSED_AT: u32 = 21;

pub const PATH_BEGINS_WITH_VAR: u32 = 22;

pub const PATH_MAYBE_INITIALIZED_ON_EXIT: u32 = 23;

pub const PATH_MAYBE_UNINITIALIZED_ON_EXIT: u32 = 24;

pub const VAR_MAYBE_PARTLY_INITIALIZED_ON_EXIT: u32 = 25;

pub const MOVE_ERROR: u32 = 26;

pub const VAR_LIVE_ON_ENTRY: u32 = 27;

pub const VAR_DROP_LIVE_ON_ENTRY: u32 = 28;

pub const ORIGIN_LIVE_ON_ENTRY: u32 = 29;

pub const KNOWN_CONTAINS: u32 = 30;

pub const KNOWN_PLACEHOLDER_SUBSET_CLOSED: u32 = 31;

pub const SUBSET: u32 = 32;

pub const ORIGIN_CONTAINS_LOAN_ON_ENTRY: u32 = 33;

pub const LOAN_LIVE_AT: u32 = 34;

pub const ERRORS: u32 = 35;

pub const SUBSET_ERRORS: u32 = 36;

pub const ORIGIN_CONTAINS_LOAN_ANYWHERE: u32 = 37;

pub const POTENTIAL_ERRORS: u32 = 38;

pub const POTENTIAL_SUBSET_ERRORS: u32 = 39;

// The name of each relation, by its number. A table of its own, as the marks of facts and the numbers of places are: each is
// told by itself, and has a contract of its own.
pub const NAMES: [&str; 40] = [
    "loan_issued_at",
    "universal_region",
    "cfg_edge",
    "loan_killed_at",
    "subset_base",
    "loan_invalidated_at",
    "var_used_at",
    "var_defined_at",
    "var_dropped_at",
    "use_of_var_derefs_origin",
    "drop_of_var_derefs_origin",
    "child_path",
    "path_is_var",
    "path_assigned_at_base",
    "path_moved_at_base",
    "path_accessed_at_base",
    "known_placeholder_subset",
    "placeholder",
    "ancestor_path",
    "path_moved_at",
    "path_assigned_at",
    "path_accessed_at",
    "path_begins_with_var",
    "path_maybe_initialized_on_exit",
    "path_maybe_uninitialized_on_exit",
    "var_maybe_partly_initialized_on_exit",
    "move_error",
    "var_live_on_entry",
    "var_drop_live_on_entry",
    "origin_live_on_entry",
    "known_contains",
    "known_placeholder_subset_closed",
    "subset",
    "origin_contains_loan_on_entry",
    "loan_live_at",
    "errors",
    "subset_errors",
    "origin_contains_loan_anywhere",
    "potential_errors",
    "potential_subset_errors",
];

// How many codes a row of the relation has.
pub fn places(relation: u32) -> u32
    ensures { result ≡ places relation }
{
    match relation {
        UNIVERSAL_REGION => 1,
        LOAN_ISSUED_AT | SUBSET_BASE | SUBSET | ORIGIN_CONTAINS_LOAN_ON_ENTRY | SUBSET_ERRORS => 3,
        _ => 2,
    }
}
