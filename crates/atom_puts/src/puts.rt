// The puts of facts in atoms, one for each fact relation: each puts the row of its atoms' numbers. `put_fact` is the one that they
// are made of; a caller has them by name, as the analysis is laid down.
ghost use Rattle.std.specs.Prelude.{◌≡◌};
ghost use Rattle.rows.specs.Relations.{loan_issued_at, universal_region, cfg_edge, loan_killed_at, subset_base, loan_invalidated_at, var_used_at, var_defined_at, var_dropped_at, use_of_var_derefs_origin, drop_of_var_derefs_origin, child_path, path_is_var, path_assigned_at_base, path_moved_at_base, path_accessed_at_base, known_placeholder_subset, placeholder};
ghost use Rattle.analysis.specs.Calls.{Putting};
ghost use Rattle.atom_puts.specs.Facts.{row_of};

use crate::fact::{Fact, row_of};
use analysis::fault::RunFault;
use analysis::state::Filling;
use facts::atom::{Atom, FactTypes};
use rows::answer::Outcome;
use table::Table;

// Puts a fact of any relation.
pub fn put_fact<F: FactTypes, T: Table>(
    filling: &mut Filling,
    t: &mut T,
    fact: &Fact<F>,
) -> Result<Outcome, RunFault>
    ensures { Putting T.means t.old filling.old.facts (row_of F.Origin.Atom.number F.Loan.Atom.number F.Point.Atom.number F.Variable.Atom.number F.Path.Atom.number fact.now) result t.new filling.new.facts }
{
    filling.put(t, row_of(fact))
}

// LI: the loan is issued at the point, into the origin.
pub fn put_loan_issued_at<F: FactTypes, T: Table>(
    filling: &mut Filling,
    t: &mut T,
    origin: F::Origin,
    loan: F::Loan,
    point: F::Point,
) -> Result<Outcome, RunFault>
    ensures { Putting T.means t.old filling.old.facts (loan_issued_at (F.Origin.Atom.number origin) (F.Loan.Atom.number loan) (F.Point.Atom.number point)) result t.new filling.new.facts }
{
    put_fact::<F, T>(filling, t, &Fact::LoanIssuedAt(origin, loan, point))
}

// UR: the origin is a universal region.
pub fn put_universal_region<F: FactTypes, T: Table>(
    filling: &mut Filling,
    t: &mut T,
    origin: F::Origin,
) -> Result<Outcome, RunFault>
    ensures { Putting T.means t.old filling.old.facts (universal_region (F.Origin.Atom.number origin)) result t.new filling.new.facts }
{
    put_fact::<F, T>(filling, t, &Fact::UniversalRegion(origin))
}

// CE: control goes from the first point to the second.
pub fn put_cfg_edge<F: FactTypes, T: Table>(
    filling: &mut Filling,
    t: &mut T,
    point1: F::Point,
    point2: F::Point,
) -> Result<Outcome, RunFault>
    ensures { Putting T.means t.old filling.old.facts (cfg_edge (F.Point.Atom.number point1) (F.Point.Atom.number point2)) result t.new filling.new.facts }
{
    put_fact::<F, T>(filling, t, &Fact::CfgEdge(point1, point2))
}

// LK: the path that the loan borrows is assigned at the point.
pub fn put_loan_killed_at<F: FactTypes, T: Table>(
    filling: &mut Filling,
    t: &mut T,
    loan: F::Loan,
    point: F::Point,
) -> Result<Outcome, RunFault>
    ensures { Putting T.means t.old filling.old.facts (loan_killed_at (F.Loan.Atom.number loan) (F.Point.Atom.number point)) result t.new filling.new.facts }
{
    put_fact::<F, T>(filling, t, &Fact::LoanKilledAt(loan, point))
}

// SB: the first origin must be within the second at the point.
pub fn put_subset_base<F: FactTypes, T: Table>(
    filling: &mut Filling,
    t: &mut T,
    origin1: F::Origin,
    origin2: F::Origin,
    point: F::Point,
) -> Result<Outcome, RunFault>
    ensures { Putting T.means t.old filling.old.facts (subset_base (F.Origin.Atom.number origin1) (F.Origin.Atom.number origin2) (F.Point.Atom.number point)) result t.new filling.new.facts }
{
    put_fact::<F, T>(filling, t, &Fact::SubsetBase(origin1, origin2, point))
}

// LV: the loan is invalidated at the point.
pub fn put_loan_invalidated_at<F: FactTypes, T: Table>(
    filling: &mut Filling,
    t: &mut T,
    point: F::Point,
    loan: F::Loan,
) -> Result<Outcome, RunFault>
    ensures { Putting T.means t.old filling.old.facts (loan_invalidated_at (F.Point.Atom.number point) (F.Loan.Atom.number loan)) result t.new filling.new.facts }
{
    put_fact::<F, T>(filling, t, &Fact::LoanInvalidatedAt(point, loan))
}

// VU: the variable is used at the point, not by a drop.
pub fn put_var_used_at<F: FactTypes, T: Table>(
    filling: &mut Filling,
    t: &mut T,
    var: F::Variable,
    point: F::Point,
) -> Result<Outcome, RunFault>
    ensures { Putting T.means t.old filling.old.facts (var_used_at (F.Variable.Atom.number var) (F.Point.Atom.number point)) result t.new filling.new.facts }
{
    put_fact::<F, T>(filling, t, &Fact::VarUsedAt(var, point))
}

// VD: the variable is overwritten at the point.
pub fn put_var_defined_at<F: FactTypes, T: Table>(
    filling: &mut Filling,
    t: &mut T,
    var: F::Variable,
    point: F::Point,
) -> Result<Outcome, RunFault>
    ensures { Putting T.means t.old filling.old.facts (var_defined_at (F.Variable.Atom.number var) (F.Point.Atom.number point)) result t.new filling.new.facts }
{
    put_fact::<F, T>(filling, t, &Fact::VarDefinedAt(var, point))
}

// VX: the variable is dropped at the point.
pub fn put_var_dropped_at<F: FactTypes, T: Table>(
    filling: &mut Filling,
    t: &mut T,
    var: F::Variable,
    point: F::Point,
) -> Result<Outcome, RunFault>
    ensures { Putting T.means t.old filling.old.facts (var_dropped_at (F.Variable.Atom.number var) (F.Point.Atom.number point)) result t.new filling.new.facts }
{
    put_fact::<F, T>(filling, t, &Fact::VarDroppedAt(var, point))
}

// UD: a use of the variable may dereference what has the origin.
pub fn put_use_of_var_derefs_origin<F: FactTypes, T: Table>(
    filling: &mut Filling,
    t: &mut T,
    var: F::Variable,
    origin: F::Origin,
) -> Result<Outcome, RunFault>
    ensures { Putting T.means t.old filling.old.facts (use_of_var_derefs_origin (F.Variable.Atom.number var) (F.Origin.Atom.number origin)) result t.new filling.new.facts }
{
    put_fact::<F, T>(filling, t, &Fact::UseOfVarDerefsOrigin(var, origin))
}

// DD: a drop of the variable may dereference what has the origin.
pub fn put_drop_of_var_derefs_origin<F: FactTypes, T: Table>(
    filling: &mut Filling,
    t: &mut T,
    var: F::Variable,
    origin: F::Origin,
) -> Result<Outcome, RunFault>
    ensures { Putting T.means t.old filling.old.facts (drop_of_var_derefs_origin (F.Variable.Atom.number var) (F.Origin.Atom.number origin)) result t.new filling.new.facts }
{
    put_fact::<F, T>(filling, t, &Fact::DropOfVarDerefsOrigin(var, origin))
}

// CP: the first path is a direct child of the second.
pub fn put_child_path<F: FactTypes, T: Table>(
    filling: &mut Filling,
    t: &mut T,
    child: F::Path,
    parent: F::Path,
) -> Result<Outcome, RunFault>
    ensures { Putting T.means t.old filling.old.facts (child_path (F.Path.Atom.number child) (F.Path.Atom.number parent)) result t.new filling.new.facts }
{
    put_fact::<F, T>(filling, t, &Fact::ChildPath(child, parent))
}

// PV: the path is the variable itself.
pub fn put_path_is_var<F: FactTypes, T: Table>(
    filling: &mut Filling,
    t: &mut T,
    path: F::Path,
    var: F::Variable,
) -> Result<Outcome, RunFault>
    ensures { Putting T.means t.old filling.old.facts (path_is_var (F.Path.Atom.number path) (F.Variable.Atom.number var)) result t.new filling.new.facts }
{
    put_fact::<F, T>(filling, t, &Fact::PathIsVar(path, var))
}

// PA: the path is assigned at the point.
pub fn put_path_assigned_at_base<F: FactTypes, T: Table>(
    filling: &mut Filling,
    t: &mut T,
    path: F::Path,
    point: F::Point,
) -> Result<Outcome, RunFault>
    ensures { Putting T.means t.old filling.old.facts (path_assigned_at_base (F.Path.Atom.number path) (F.Point.Atom.number point)) result t.new filling.new.facts }
{
    put_fact::<F, T>(filling, t, &Fact::PathAssignedAtBase(path, point))
}

// PM: the path is moved at the point.
pub fn put_path_moved_at_base<F: FactTypes, T: Table>(
    filling: &mut Filling,
    t: &mut T,
    path: F::Path,
    point: F::Point,
) -> Result<Outcome, RunFault>
    ensures { Putting T.means t.old filling.old.facts (path_moved_at_base (F.Path.Atom.number path) (F.Point.Atom.number point)) result t.new filling.new.facts }
{
    put_fact::<F, T>(filling, t, &Fact::PathMovedAtBase(path, point))
}

// PC: the path is accessed at the point.
pub fn put_path_accessed_at_base<F: FactTypes, T: Table>(
    filling: &mut Filling,
    t: &mut T,
    path: F::Path,
    point: F::Point,
) -> Result<Outcome, RunFault>
    ensures { Putting T.means t.old filling.old.facts (path_accessed_at_base (F.Path.Atom.number path) (F.Point.Atom.number point)) result t.new filling.new.facts }
{
    put_fact::<F, T>(filling, t, &Fact::PathAccessedAtBase(path, point))
}

// KS: the first universal region is known to be within the second.
pub fn put_known_placeholder_subset<F: FactTypes, T: Table>(
    filling: &mut Filling,
    t: &mut T,
    origin1: F::Origin,
    origin2: F::Origin,
) -> Result<Outcome, RunFault>
    ensures { Putting T.means t.old filling.old.facts (known_placeholder_subset (F.Origin.Atom.number origin1) (F.Origin.Atom.number origin2)) result t.new filling.new.facts }
{
    put_fact::<F, T>(filling, t, &Fact::KnownPlaceholderSubset(origin1, origin2))
}

// PL: the loan is the placeholder loan of the origin.
pub fn put_placeholder<F: FactTypes, T: Table>(
    filling: &mut Filling,
    t: &mut T,
    origin: F::Origin,
    loan: F::Loan,
) -> Result<Outcome, RunFault>
    ensures { Putting T.means t.old filling.old.facts (placeholder (F.Origin.Atom.number origin) (F.Loan.Atom.number loan)) result t.new filling.new.facts }
{
    put_fact::<F, T>(filling, t, &Fact::Placeholder(origin, loan))
}
