//! The reason of a literal on a trail, and whether it was decided or a clause implied it.
//!
//! A walk over a trail puts for an implied literal the other literals of its reason. What it needs of a reason is said here once:
//! it holds the literal, its other literals are false at earlier places, and it follows from the clauses. The reason of what a
//! theory implied is not read here: the theory gives it when it is asked.
ghost use Rattle.std.specs.Prelude.{◌≡◌, ◌<◌, length, IsTrue, ◌↔◌};
ghost use Rattle.sat_terms.specs.Truth.{Implies};
ghost use Rattle.trail_state.specs.Trail.{step};
ghost use Rattle.trail_state.specs.Clauses.{IsReason};
ghost use Rattle.trail_state.specs.declared.reason.Reason.TheVariants.{Decision};
ghost use Rattle.rooted_trails.specs.Known.{everything, Known, AllStandIn};
ghost use Rattle.rooted_trails.specs.Rooted.{HasReasons, IsImpliedByClause, by_clause, reason_lits};

use clause_store::store::Store;
use sat_model::literal::Lit;
use trail_state::reason::Reason;
use trail_state::trail::Trail;

/// The reason of the literal at a place: the literals of the clause that implied it. What clauses implied must have its reasons in
/// the store, and the literal must stand above the root and be implied by a clause.
pub fn reason_at<'a>(store: &'a Store, trail: &Trail, place: usize) -> &'a [Lit]
    requires reasons { HasReasons store.now trail.now.steps }
    requires implied { IsImpliedByClause trail.now.steps place }
    ensures value { result.now ≡ reason_lits store.now (step trail.now.steps place).reason }
    ensures reason { IsReason result.now trail.now.steps place }
    ensures known { Implies (Known store.now everything) result.now }
    ensures from { AllStandIn store.now result.now }
{
    // A trail has fewer than 2^32 places.
    trail.law_room();
    match trail.reason_at(place as u32) {
        Reason::Clause(id) => store.get(id),
        Reason::Decision => unreachable!(),
        Reason::Theory => unreachable!(),
    }
}

/// Whether the literal at a place of the trail was decided. The place must be one of the trail.
pub fn is_decision(trail: &Trail, place: usize) -> bool
    requires { place < length trail.now.steps }
    ensures { IsTrue result ↔ ((step trail.now.steps place).reason ≡ Decision) }
{
    // A trail has fewer than 2^32 places.
    trail.law_room();
    match trail.reason_at(place as u32) {
        Reason::Decision => true,
        Reason::Clause(_id) => false,
        Reason::Theory => false,
    }
}

/// Whether a clause implied the literal at a place of the trail. The place must be one of the trail.
pub fn is_by_clause(trail: &Trail, place: usize) -> bool
    requires { place < length trail.now.steps }
    ensures { result ≡ by_clause (step trail.now.steps place).reason }
{
    // A trail has fewer than 2^32 places.
    trail.law_room();
    match trail.reason_at(place as u32) {
        Reason::Clause(_id) => true,
        Reason::Decision => false,
        Reason::Theory => false,
    }
}
