//! Laws of the rule, over every list of clauses. The calls do nothing; their clauses are the
//! theorems.
ghost use Rattle.vivify_pass.specs.Rule.{ResultIsImplied, CalmIsNotShortened, CalmStays};

/// What the rule makes of a firm clause is implied by the firm clauses.
pub fn law_result_is_implied()
    ensures { ResultIsImplied }
{}

/// A clause that is calm is not shortened by the rule.
pub fn law_calm_is_not_shortened()
    ensures { CalmIsNotShortened }
{}

/// A clause that is calm stays so where other clauses go.
pub fn law_calm_stays()
    ensures { CalmStays }
{}
