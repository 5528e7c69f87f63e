//! The rounds: each firm clause is tried in turn, until a whole round shortens none.
//!
//! A clause is tried over the other firm clauses, so it leaves the watch lists first and comes
//! back afterwards, as it was or as the shorter clause that takes its place. Each one that gets
//! shorter may let another one get shorter, so only a whole round without a change is the end.
//! The clauses stand in a ring: a round begins at the place behind the last change and goes once
//! round, back to that place. So from one change to the next, and to the end, no clause is tried
//! twice, and there are at most as many steps as the firm clauses have literals.
//!
//! The shorter clause has an id of its own, and gets the place of the one that went. So the ring
//! holds the ids of the firm clauses, each once, and is made but once.
ghost use Rattle.std.specs.Prelude.{◌≡◌, ◌≤◌, ◌<◌, length, true, OnOk, IfOk};
ghost use Rattle.clause_store.specs.Stored.{slot, slot_lits, is_firm};
ghost use Rattle.clause_store.specs.Listing.{HasEachOnce, firm_at};
ghost use Rattle.pass_terms.specs.Ruled.{Ruled, always};
ghost use Rattle.vivify_pass.specs.Trailing.{Ready, Found, KeepsRoot};
ghost use Rattle.vivify_pass.specs.Turning.{AreFirm, Shortens, Turned, Tried, Rests};

use crate::root::settle;
use crate::trial::find;
use rule_kernel::kernel::Kernel;
use rule_kernel::report::Ended;
use sat_model::lists::{ClauseId, Lits};
use sat_model::literal::Lit;
use sat_model::memory::Memory;
use std::alloc::Global;
use trail_state::trail::Trail;
use watch_lists::watches::Watches;

// What became of a clause.
#[derive(Clone, Copy)]
pub(crate) enum Turn {
    // The rule does not shorten it.
    Same,
    // A shorter one came in its place, under this id.
    Shorter(ClauseId),
    // The limit left no step.
    Full,
}

// What became of clauses that were tried in turn.
#[derive(Clone, Copy)]
pub(crate) enum Round {
    // The rule shortens none of them.
    Unchanged,
    // The one at this place got shorter, and has this id now. Those behind it were not tried.
    Changed(usize, ClauseId),
    // The limit left no step.
    Stopped,
}

// Puts a shorter clause in the place of one, in the kernel and in the lists.
fn replace(
    kernel: &mut Kernel,
    watches: &mut Watches,
    trail: &Trail,
    id: ClauseId,
    new: &[Lit],
) -> Result<ClauseId, Memory>
    requires ready { Ready kernel.old.store watches.old trail.now }
    requires firm { is_firm (slot kernel.old.store id) ≡ true }
    requires found { Found kernel.old.store id (slot_lits (slot kernel.old.store id)) new.now }
    requires keeps { KeepsRoot (slot_lits (slot kernel.old.store id)) new.now trail.now.steps }
    requires less { length new.now < length (slot_lits (slot kernel.old.store id)) }
    ensures ruled { Ruled always kernel.old kernel.new }
    ensures shorter { IfOk result (λ next. Shortens kernel.old.store kernel.new.store id next) }
    ensures ready { OnOk result (Ready kernel.new.store watches.new trail.now) }
{
    let _ = trail;
    // The new clause comes first: the old one is implied by it.
    let next = kernel.add_implied(new)?;
    watches.law_following();
    watches.detach(kernel.store(), id);
    kernel.drop_implied(id);
    watches.law_following();
    watches.attach(kernel.store(), next)?;
    Ok(next)
}

// Tries the rule on a clause, and puts its shorter form in its place if there is one.
fn try_one(
    alloc: Global,
    kernel: &mut Kernel,
    watches: &mut Watches,
    trail: &mut Trail,
    rooted: &mut bool,
    id: ClauseId,
    steps: &mut u64,
    limit: u64,
) -> Result<Turn, Memory>
    requires ready { Ready kernel.old.store watches.old trail.old }
    requires firm { is_firm (slot kernel.old.store id) ≡ true }
    requires rest { steps.old ≤ limit }
    ensures ruled { Ruled always kernel.old kernel.new }
    ensures turned { IfOk result (λ turn.
        Turned kernel.old kernel.new watches.new trail.new id steps.old steps.new limit turn) }
{
    let lits = Lits::from_slice(alloc, kernel.store().get(id))?;
    settle(alloc, kernel.store(), watches, trail, rooted)?;
    let found = find(
        alloc,
        kernel.store(),
        watches,
        trail,
        id,
        lits.as_slice(),
        steps,
        limit,
    )?;
    match found {
        None => Ok(Turn::Full),
        Some(new) => {
            if new.len() < lits.as_slice().len() {
                let next = replace(kernel, watches, trail, id, new.as_slice())?;
                return Ok(Turn::Shorter(next));
            }
            Ok(Turn::Same)
        }
    }
}

// Tries the rule on each of these clauses, which are firm, up to the first that gets shorter.
fn try_some(
    alloc: Global,
    kernel: &mut Kernel,
    watches: &mut Watches,
    trail: &mut Trail,
    rooted: &mut bool,
    ids: &[ClauseId],
    steps: &mut u64,
    limit: u64,
) -> Result<Round, Memory>
    requires ready { Ready kernel.old.store watches.old trail.old }
    requires firm { AreFirm kernel.old.store ids.now }
    requires rest { steps.old ≤ limit }
    ensures ruled { Ruled always kernel.old kernel.new }
    ensures tried { IfOk result (λ round.
        Tried kernel.old kernel.new watches.new trail.new ids.now steps.old steps.new limit
        round) }
{
    for place in 0..ids.len() {
        let id = ids[place];
        match try_one(alloc, kernel, watches, trail, rooted, id, steps, limit)? {
            Turn::Same => {}
            Turn::Shorter(next) => return Ok(Round::Changed(place, next)),
            Turn::Full => return Ok(Round::Stopped),
        }
    }
    Ok(Round::Unchanged)
}

// Tries the rule on all firm clauses, once round from a place on, up to the first that gets
// shorter.
fn try_round(
    alloc: Global,
    kernel: &mut Kernel,
    watches: &mut Watches,
    trail: &mut Trail,
    rooted: &mut bool,
    ids: &[ClauseId],
    start: usize,
    steps: &mut u64,
    limit: u64,
) -> Result<Round, Memory>
    requires ready { Ready kernel.old.store watches.old trail.old }
    requires firm { AreFirm kernel.old.store ids.now }
    requires within { start ≤ length ids.now }
    requires rest { steps.old ≤ limit }
    ensures ruled { Ruled always kernel.old kernel.new }
    ensures tried { IfOk result (λ round.
        Tried kernel.old kernel.new watches.new trail.new ids.now steps.old steps.new limit
        round) }
{
    match try_some(
        alloc,
        kernel,
        watches,
        trail,
        rooted,
        &ids[start..],
        steps,
        limit,
    )? {
        Round::Unchanged => try_some(
            alloc,
            kernel,
            watches,
            trail,
            rooted,
            &ids[..start],
            steps,
            limit,
        ),
        Round::Changed(place, next) => Ok(Round::Changed(start + place, next)),
        Round::Stopped => Ok(Round::Stopped),
    }
}

/// Goes round over all firm clauses, until a whole round shortens none, or the steps reach the
/// limit.
pub(crate) fn rounds(
    alloc: Global,
    kernel: &mut Kernel,
    watches: &mut Watches,
    trail: &mut Trail,
    limit: u64,
) -> Result<Ended, Memory>
    requires { Ready kernel.old.store watches.old trail.old }
    ensures ruled { Ruled always kernel.old kernel.new }
    ensures ended { IfOk result (λ ended. Rests kernel.old.store kernel.new.store limit ended) }
{
    let mut ids = Vec::from_slice(alloc, kernel.store().firm_ids())?;
    let mut rooted = true;
    let mut start = 0;
    let mut steps = 0;
    loop {
        match try_round(
            alloc,
            kernel,
            watches,
            trail,
            &mut rooted,
            ids.as_slice(),
            start,
            &mut steps,
            limit,
        )? {
            Round::Unchanged => return Ok(Ended::Fixpoint),
            Round::Changed(place, next) => {
                ids[place] = next;
                start = place + 1;
            }
            Round::Stopped => return Ok(Ended::Limit(steps)),
        }
    }
}
