//! Two members of a group that a model makes true, if there are two.
//!
//! A whole model is judged once, at the end of a search, so it is gone through from the front with no
//! regard to what was found before: for the first member that it makes true, and then for the first
//! other one. Two passes keep each loop to one question.
//!
//! Where the first pass finds none, no member is true; where the second finds none, no member but
//! that one is. Either way at most one is true. A variable that stands in the list twice is passed
//! over as often as it stands there, so the two that are found are different.
ghost use Rattle.std.specs.Prelude.{◌≡◌, ◌≢◌, not, true, IfSome, IfNone};
ghost use Rattle.std.specs.List.{list_all};
ghost use Rattle.sat_terms.specs.Truth.{values};
ghost use Rattle.group_propagator.specs.Group.{no_two, is_false_or, IsTrueIn, AreTwo};

use sat_model::literal::Var;
use sat_model::truth::lit_true;

// Whether a model makes a variable true.
#[tactic(auto, using(crate::proofs::Admitting::pos_true))]
fn is_true(var: Var, model: &[bool]) -> bool
    ensures { result ≡ values model.now var }
{
    lit_true(model, var.positive())
}

// The first member that a model makes true.
fn true_member(members: &[Var], model: &[bool]) -> Option<Var>
    ensures some { IfSome result (IsTrueIn (values model.now) members.now) }
    ensures none { IfNone result (list_all (λ v. not (values model.now v)) members.now ≡ true) }
{
    for member in members {
        if is_true(*member, model) {
            return Some(*member);
        }
    }
    None
}

// The first member but one that a model makes true.
fn other_true_member(members: &[Var], one: Var, model: &[bool]) -> Option<Var>
    ensures some { IfSome result (IsTrueIn (values model.now) members.now) }
    ensures other { IfSome result (λ v. v ≢ one) }
    ensures none { IfNone result
        (list_all (is_false_or (values model.now) one) members.now ≡ true) }
{
    for member in members {
        if *member != one && is_true(*member, model) {
            return Some(*member);
        }
    }
    None
}

// Two different members that a model makes true. `None` exactly where at most one is.
pub(crate) fn two_true(members: &[Var], model: &[bool]) -> Option<(Var, Var)>
    ensures some { IfSome result (AreTwo (values model.now) members.now) }
    ensures none { IfNone result (no_two (values model.now) members.now ≡ true) }
{
    let Some(one) = true_member(members, model) else {
        return None;
    };
    let Some(other) = other_true_member(members, one, model) else {
        return None;
    };
    Some((one, other))
}
