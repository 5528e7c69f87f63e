//! The walk along a group for a member that must still be made false.
//!
//! Once a literal is chosen, each other member is to be false. A member is settled where it is: it
//! is the one that the chosen literal makes true, or it is false on the seen trail. The walk goes
//! from a place on over the members that are settled, and ends at the first that is not, or behind
//! the last.
//!
//! The caller keeps the place where it ended and begins there the next time. That is right for as
//! long as literals are only added to the seen trail: a settled member stays settled. Where a level
//! is taken back it need not, so the caller begins at the front again.
//!
//! A member that has no value and one that is true both end the walk; the caller tells them apart.
ghost use Rattle.std.specs.Prelude.{◌≡◌, ◌<◌, true, false, take, length, slice_index};
ghost use Rattle.std.specs.List.{list_all};
ghost use Rattle.group_propagator.specs.Group.{is_settled};

use sat_model::literal::{Lit, Var};
use user_propagator::desk::Desk;

// Whether a member is settled.
fn is_done(member: Var, chosen: Lit, desk: &Desk) -> bool
    ensures { result ≡ is_settled desk.now.seen chosen member }
{
    let lit = member.positive();
    lit == chosen || desk.value(lit) == Some(false)
}

// The place of the first member from a place on that is not settled, or the end.
pub(crate) fn first_open(members: &[Var], from: usize, chosen: Lit, desk: &Desk) -> usize
    ensures settled { list_all (is_settled desk.now.seen chosen) (take from members.now) ≡ true
        → list_all (is_settled desk.now.seen chosen) (take result members.now) ≡ true }
    ensures ends { result < length members.now
        → is_settled desk.now.seen chosen (slice_index members.now result) ≡ false }
{
    let mut at = from;
    while at < members.len() && is_done(members[at], chosen, desk) {
        at += 1;
    }
    at
}
