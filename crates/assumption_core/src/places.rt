//! What the trail says of a place.
//!
//! A place is where a literal stands on the trail, the oldest at 0: whether it was decided there,
//! and where a variable stands if that is above the root.
ghost use Rattle.std.specs.Prelude.{◌≡◌, ◌≢◌, ◌<◌, ℕ, length, IfSome, IfNone, IsTrue, ◌↔◌};
ghost use Rattle.sat_terms.specs.Literal.{var_of};
ghost use Rattle.trail_state.specs.Trail.{step};
ghost use Rattle.trail_state.specs.declared.reason.Reason.TheVariants.{Decision};

use rooted_trails::reading::is_decision;
use sat_model::literal::{Lit, Var};
use trail_state::trail::Trail;

// The place of a variable, if it has one above the root.
pub(crate) fn place_above_root(trail: &Trail, var: Var) -> Option<usize>
    ensures within { IfSome result (λ k. k < length trail.now.steps) }
    ensures same { IfSome result (λ k. var_of (step trail.now.steps k).lit ≡ var) }
    ensures above { IfSome result (λ k. 0 < (step trail.now.steps k).level) }
    ensures none { IfNone result ((j : ℕ) → j < length trail.now.steps → var_of (step trail.now.steps j).lit ≡ var → (step trail.now.steps j).level ≡ 0) }
{
    trail.law_shape();
    let place = trail.place_of(var)?;
    let level = trail.level_at(place);
    if level == 0 {
        None
    } else {
        Some(place as usize)
    }
}

// The place where a literal was decided, if it was.
pub(crate) fn decided_at(trail: &Trail, lit: Lit) -> Option<usize>
    ensures within { IfSome result (λ k. k < length trail.now.steps) }
    ensures same { IfSome result (λ k. (step trail.now.steps k).lit ≡ lit) }
    ensures decided { IfSome result (λ k. (step trail.now.steps k).reason ≡ Decision) }
    ensures none { IfNone result ((j : ℕ) → j < length trail.now.steps → (step trail.now.steps j).reason ≡ Decision → (step trail.now.steps j).lit ≢ lit) }
{
    trail.law_shape();
    let place = trail.place_of(lit.var())? as usize;
    if trail.lits()[place] != lit {
        return None;
    }
    if is_decision(trail, place) {
        Some(place)
    } else {
        None
    }
}
