// Theorems about the derived relations, each the contract of a function.
#![tactic(auto)]

ghost use Rattle.theorems.specs.Compared.{LoanErrorsCompared, SubsetErrorsCompared};
ghost use Rattle.theorems.specs.Restriction.{SubsetStruck};
ghost use Rattle.theorems.specs.Cases.{UsedLoan, KilledLoan, MovedThenAccessed, MovedNotReached, ChildMoved, KnownSubset, UnknownSubset, NoPlaceholder, SharedPlaceholder, MutualSubset, RegionNowhere, RegionLive};
ghost use Rattle.theorems.specs.Definitions.{LeastHas, LeastClosed, LeastBelow, LeastUnique, LeastIsLeast, CompletionHas, CompletionClosed, CompletionLeast, CompletionFacts, CompletionIsOne, CompletionUnique, CompletionOne, CompletedTwice, CompletionKept, OneNumber, LeastListed, CompletionListed, DerivedNumbered, AdditionsNumber};

// Every naive loan error is a location-insensitive one.
pub fn loan_errors_compared()
    ensures { LoanErrorsCompared }
{}

// So is every naive subset error, where each universal region has a placeholder loan of its own.
pub fn subset_errors_compared()
    ensures { SubsetErrorsCompared }
{}

// Subset is the unrestricted least set with the rows of equal origins struck.
pub fn subset_struck()
    ensures { SubsetStruck }
{}

// Of a rule over rows, the least set has the rows, is closed, is below every closed set, is one, and is finite.
pub fn least_sets()
    ensures has { LeastHas }
    ensures closed { LeastClosed }
    ensures below { LeastBelow }
    ensures unique { LeastUnique }
    ensures least { LeastIsLeast }
    ensures listed { LeastListed }
{}

// The completion of any rows: it has them, is closed under each rule, adds no facts, has no more than it must, is the only
// such set, goes by which rows they are, is complete itself, stays as it is when a row of it is added, and is finite.
pub fn completions()
    ensures has { CompletionHas }
    ensures closed { CompletionClosed }
    ensures least { CompletionLeast }
    ensures facts { CompletionFacts }
    ensures is_one { CompletionIsOne }
    ensures unique { CompletionUnique }
    ensures one { CompletionOne }
    ensures twice { CompletedTwice }
    ensures kept { CompletionKept }
    ensures listed { CompletionListed }
{}

// There is a number of derived rows, it is one number, and as many are added until none is missing.
pub fn derived_number()
    ensures some { DerivedNumbered }
    ensures one { OneNumber }
    ensures added { AdditionsNumber }
{}

// What is derived of small bodies: exactly these rows.
pub fn cases_stand()
    ensures used_loan { UsedLoan }
    ensures killed_loan { KilledLoan }
    ensures moved_then_accessed { MovedThenAccessed }
    ensures moved_not_reached { MovedNotReached }
    ensures child_moved { ChildMoved }
    ensures known_subset { KnownSubset }
    ensures unknown_subset { UnknownSubset }
    ensures no_placeholder { NoPlaceholder }
    ensures shared_placeholder { SharedPlaceholder }
    ensures mutual_subset { MutualSubset }
    ensures region_nowhere { RegionNowhere }
    ensures region_live { RegionLive }
{}
