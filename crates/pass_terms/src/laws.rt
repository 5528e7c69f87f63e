//! The law of lists of rules, as passes use them. The call does nothing; its clause is the theorem.
ghost use Rattle.pass_terms.specs.Ruled.{PassesSimplify};

/// What follows from a list of rules, as passes use them: firm and stacked clauses together are made true by the same assignments as before,
/// no variable comes into them, the redundant clauses stay, the stack grows at its end by entries whose witness is one literal of the
/// clause and of a variable that is not frozen, the count of removals rises by the clauses that went (up to 2^62), and that of
/// restorations stays.
pub fn law_passes_simplify()
    ensures { PassesSimplify }
{}
