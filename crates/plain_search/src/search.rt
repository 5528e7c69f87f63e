//! The search: backtracking in its plainest form, which the solver is compared with.
//!
//! All clauses are looked at from the first on, at each turn. A false one turns the newest decision round; one with a single literal left
//! assigns it; where there is neither, the least variable without a value is decided. Nothing is learned, nothing is indexed, so that
//! little can be wrong and all of it is short; it takes exponential time where a search that learns does not.
ghost use Rattle.std.specs.Prelude.{◌≡◌, ◌+◌, ◌<◌, ◌≤◌, length, All, IfOk, IfSome, IfNone};
ghost use Rattle.sat_terms.specs.Limits.{max_var};
ghost use Rattle.sat_terms.specs.Answer.{Satisfies, Within, IsModel, NoModel};
ghost use Rattle.plain_search.specs.Rules.{rules};
ghost use Rattle.plain_search.specs.Steps.{Justified, rank};
ghost use Rattle.plain_search.specs.Search.{Flips, Turns};

use crate::assignment::Assignment;
use crate::clause_list::ClauseList;
use crate::scan::{Finding, scan};
use sat_model::literal::Lit;
use sat_model::memory::Memory;
use std::alloc::Global;

/// What a turn of the search led to.
#[derive(Clone, Copy, Debug, PartialEq, Eq)]
pub enum Turn {
    /// It goes on.
    On,
    /// Each clause and each assumption has a true literal.
    Model,
    /// There is no model.
    NoModel,
}

// Undoes the steps up to the newest decision, and turns that decision round; answers whether there was one.
fn backtrack(now: &mut Assignment) -> Result<bool, Memory>
    ensures vars { now.new.vars ≡ now.old.vars }
    ensures flipped { IfOk result (λ found. Flips found now.old.steps now.new.steps) }
{
    while let Some(step) = now.pop() {
        if step.decision {
            now.push(step.lit.neg(), false)?;
            return Ok(true);
        }
    }
    Ok(false)
}

// One turn: a literal is forced, or decided, or a decision is turned round, or the search ends.
fn take_turn<L: ClauseList>(
    now: &mut Assignment,
    clauses: &L,
    assumed: &[Lit],
    place: &mut usize,
) -> Result<Turn, Memory>
    requires within { All (Within now.old.vars) (rules assumed.now (L.clauses clauses.now)) }
    requires justified { Justified (Satisfies (rules assumed.now (L.clauses clauses.now))) now.old.steps }
    requires room { length now.old.steps ≤ now.old.vars + 1 }
    ensures vars { now.new.vars ≡ now.old.vars }
    ensures turns { IfOk result (Turns (Satisfies (rules assumed.now (L.clauses clauses.now))) now.old.vars now.old.steps now.new.steps) }
{
    match scan(now, clauses, assumed, place) {
        Finding::Conflict => {
            if backtrack(now)? {
                Ok(Turn::On)
            } else {
                Ok(Turn::NoModel)
            }
        }
        Finding::Forced(lit) => {
            now.push(lit, false)?;
            Ok(Turn::On)
        }
        Finding::Undecided => match now.first_free() {
            Some(var) => {
                now.push(var.positive(), true)?;
                Ok(Turn::On)
            }
            None => unreachable!(),
        },
        Finding::Met => Ok(Turn::Model),
    }
}

/// A model of the clauses and the assumptions over the variables 1 to `vars`, if there is one. `vars` is at most 4,194,303 and at
/// least the variable of each literal. `None` says that no assignment makes all of them true. Want of memory is the one refusal.
///
/// This is backtracking with unit propagation (Davis, Logemann, Loveland 1962): the least variable without a value is decided true,
/// and the memory taken is linear in `vars`.
pub fn search<L: ClauseList>(
    alloc: Global,
    clauses: &L,
    assumed: &[Lit],
    vars: u32,
) -> Result<Option<Vec<bool>>, Memory>
    requires few { vars ≤ max_var }
    requires clauses_within { All (Within vars) (L.clauses clauses.now) }
    requires assumed_within { Within vars assumed.now }
    ensures model { IfOk result (λ found. IfSome found (λ m. IsModel (Satisfies (L.clauses clauses.now)) assumed.now vars m.items)) }
    ensures none { IfOk result (λ found. IfNone found (NoModel (Satisfies (L.clauses clauses.now)) assumed.now)) }
{
    let mut now = Assignment::new(alloc, vars)?;
    let mut place = 0;
    loop {
        match take_turn(&mut now, clauses, assumed, &mut place)? {
            Turn::On => {}
            Turn::Model => return Ok(Some(now.model(alloc)?)),
            Turn::NoModel => return Ok(None),
        }
    }
}
