// A fact in atoms, and the row that stands for it.
ghost use Rattle.std.specs.Prelude.{◌≡◌};
ghost use Rattle.atom_puts.specs.Facts.{row_of};

use facts::atom::{Atom, FactTypes};
use rows::relation;
use rows::row::Row;

#[derive(Clone, Drop, PartialEq, Eq, Debug)]
pub enum Fact<F: FactTypes> {
    LoanIssuedAt(F::Origin, F::Loan, F::Point),
    UniversalRegion(F::Origin),
    CfgEdge(F::Point, F::Point),
    LoanKilledAt(F::Loan, F::Point),
    SubsetBase(F::Origin, F::Origin, F::Point),
    LoanInvalidatedAt(F::Point, F::Loan),
    VarUsedAt(F::Variable, F::Point),
    VarDefinedAt(F::Variable, F::Point),
    VarDroppedAt(F::Variable, F::Point),
    UseOfVarDerefsOrigin(F::Variable, F::Origin),
    DropOfVarDerefsOrigin(F::Variable, F::Origin),
    ChildPath(F::Path, F::Path),
    PathIsVar(F::Path, F::Variable),
    PathAssignedAtBase(F::Path, F::Point),
    PathMovedAtBase(F::Path, F::Point),
    PathAccessedAtBase(F::Path, F::Point),
    KnownPlaceholderSubset(F::Origin, F::Origin),
    Placeholder(F::Origin, F::Loan),
}

// The row of a fact: its relation, and the numbers of its atoms. Here and above, the five number functions stand one by one: as
// one member of `FactTypes` they would need a law that ties them to the kinds, which every implementor had to prove.
pub fn row_of<F: FactTypes>(fact: &Fact<F>) -> Row
    ensures { result ≡ row_of F.Origin.Atom.number F.Loan.Atom.number F.Point.Atom.number F.Variable.Atom.number F.Path.Atom.number fact.now }
{
    match fact {
        Fact::LoanIssuedAt(origin, loan, point) => Row::new(
            relation::LOAN_ISSUED_AT,
            origin.code(),
            loan.code(),
            point.code(),
        ),
        Fact::UniversalRegion(origin) => Row::new(relation::UNIVERSAL_REGION, origin.code(), 0, 0),
        Fact::CfgEdge(point1, point2) => Row::new(
            relation::CFG_EDGE,
            point1.code(),
            point2.code(),
            0,
        ),
        Fact::LoanKilledAt(loan, point) => Row::new(
            relation::LOAN_KILLED_AT,
            loan.code(),
            point.code(),
            0,
        ),
        Fact::SubsetBase(origin1, origin2, point) => Row::new(
            relation::SUBSET_BASE,
            origin1.code(),
            origin2.code(),
            point.code(),
        ),
        Fact::LoanInvalidatedAt(point, loan) => Row::new(
            relation::LOAN_INVALIDATED_AT,
            point.code(),
            loan.code(),
            0,
        ),
        Fact::VarUsedAt(var, point) => Row::new(relation::VAR_USED_AT, var.code(), point.code(), 0),
        Fact::VarDefinedAt(var, point) => Row::new(
            relation::VAR_DEFINED_AT,
            var.code(),
            point.code(),
            0,
        ),
        Fact::VarDroppedAt(var, point) => Row::new(
            relation::VAR_DROPPED_AT,
            var.code(),
            point.code(),
            0,
        ),
        Fact::UseOfVarDerefsOrigin(var, origin) => Row::new(
            relation::USE_OF_VAR_DEREFS_ORIGIN,
            var.code(),
            origin.code(),
            0,
        ),
        Fact::DropOfVarDerefsOrigin(var, origin) => Row::new(
            relation::DROP_OF_VAR_DEREFS_ORIGIN,
            var.code(),
            origin.code(),
            0,
        ),
        Fact::ChildPath(child, parent) => Row::new(
            relation::CHILD_PATH,
            child.code(),
            parent.code(),
            0,
        ),
        Fact::PathIsVar(path, var) => Row::new(relation::PATH_IS_VAR, path.code(), var.code(), 0),
        Fact::PathAssignedAtBase(path, point) => Row::new(
            relation::PATH_ASSIGNED_AT_BASE,
            path.code(),
            point.code(),
            0,
        ),
        Fact::PathMovedAtBase(path, point) => Row::new(
            relation::PATH_MOVED_AT_BASE,
            path.code(),
            point.code(),
            0,
        ),
        Fact::PathAccessedAtBase(path, point) => Row::new(
            relation::PATH_ACCESSED_AT_BASE,
            path.code(),
            point.code(),
            0,
        ),
        Fact::KnownPlaceholderSubset(origin1, origin2) => Row::new(
            relation::KNOWN_PLACEHOLDER_SUBSET,
            origin1.code(),
            origin2.code(),
            0,
        ),
        Fact::Placeholder(origin, loan) => Row::new(
            relation::PLACEHOLDER,
            origin.code(),
            loan.code(),
            0,
        ),
    }
}
