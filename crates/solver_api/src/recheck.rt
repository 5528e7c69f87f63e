//! A count of all that a shown model makes true, by evaluation.
//!
//! A model is right by the contract of the solve that found it. This looks at it again, part by
//! part, as a program may be asked to (`--check`): each clause that was given and each assumption
//! of the query is evaluated under the model. All of them are true, so the count is their number.
ghost use Rattle.std.specs.Prelude.{◌≡◌, ◌+◌, ◌<◌, ◌^◌, Some, None, IfOk, IfErr, length, count_by};
ghost use Rattle.sat_terms.specs.Truth.{values, lit_true as lit_truth};
ghost use Rattle.solver_api.specs.Given.{part_true as part_truth};
ghost use Rattle.solver_api.specs.Steps.{state, model_of};
ghost use Rattle.solver_api.specs.Recheck.{recheck_of};

use crate::calls::Refusal;
use crate::givens::GivenPart;
use crate::solver::Solver;
use sat_model::literal::Lit;
use sat_model::truth::{clause_true, constraint_true, lit_true};

// Whether a part is true.
fn part_true(model: &[bool], part: &GivenPart) -> bool
    ensures { result ≡ part_truth (values model.now) part.now }
{
    match part {
        GivenPart::Clause(lits) => clause_true(model, lits.as_slice()),
        GivenPart::Rule(what) => constraint_true(model, what),
    }
}

// How many parts are true.
fn true_parts(model: &[bool], parts: &[GivenPart]) -> usize
    ensures { result ≡ count_by (part_truth (values model.now)) parts.now }
{
    parts.iter().filter(|part| part_true(model, part)).count()
}

// How many literals are true.
fn true_lits(model: &[bool], lits: &[Lit]) -> usize
    ensures { result ≡ count_by (lit_truth (values model.now)) lits.now }
{
    lits.iter().filter(|lit| lit_true(model, **lit)).count()
}

impl Solver {
    /// The number of parts of what was given and of assumptions of the last solve that the shown
    /// model makes true, which is all of them. `NotSat` exactly where no model is shown.
    pub fn recheck(&self) -> Result<u64, Refusal>
        ensures counts { result ≡ recheck_of (state self.now) }
        ensures all { IfOk result (λ count. count ≡ length (state self.now).given + length (state self.now).queried) }
        ensures none { IfErr result (λ e. (e ≡ Refusal.NotSat) × (model_of (state self.now).mode ≡ None)) }
    {
        let model = self.model()?;
        let parts = true_parts(model, self.given().as_slice()) as u64;
        let lits = true_lits(model, self.queried()) as u64;
        Ok(parts + lits)
    }
}
