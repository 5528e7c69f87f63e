//! Laws of the rules: what holds over all clauses, stacks and lists of rules. The calls do nothing; their clauses are the theorems.
ghost use Rattle.rule_kernel.specs.Rules.{RulesKeepChain, ChainExtends, NewestActsFirst};

/// Over every list of rules the chain is kept: in each state each entry's witness witnesses its clause for the firm clauses
/// together with the clauses of all later entries.
pub fn law_rules_keep_chain()
    ensures { RulesKeepChain }
{}

/// The law of extension (Fazekas, Biere, Scholl, SAT 2019): where the chain holds, an assignment that makes the firm clauses true, extended
/// by the stack, makes the firm clauses and the clauses of the stack true.
pub fn law_chain_extends()
    ensures { ChainExtends }
{}

/// The newest entry acts first: the extension by a stack with one more entry is the extension by the stack of what that entry makes of
/// the assignment.
pub fn law_newest_acts_first()
    ensures { NewestActsFirst }
{}
