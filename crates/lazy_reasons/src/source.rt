//! Reasons that are found where they are needed.
//!
//! A literal that a clause implied has that clause for its reason. One that the external propagator implied has a reason too,
//! which the propagator gives only when it is asked: most literals that it implies are never looked at by an analysis, so most
//! reasons are never built. The analysis of conflicts and the cores of failed assumptions walk back over the trail, and come to
//! both kinds. For either they need the same of a reason: it holds the literal, its other literals are false at earlier places,
//! and it follows from what is known. Then where it came from is no matter to the walk.
//!
//! A stored clause is told by its id, and not copied. A given reason is owned, and lives as long as the one that asked. The box
//! sees the seen trail and not the trail, so it promises that the other literals are false on the seen trail before the literal.
//! Since the seen trail has the trail's literals at their levels, and above the root in the trail's order, they are false on the
//! trail before the literal's place (lemma `false_before`). At the root the seen trail may have another order, which is no
//! matter: a literal of the root stands before every one above it.
//!
//! Each question is a callback, and is counted by the bridge. It may change what the box admits, to less alone, so what was
//! learned so far still follows. The method is that of IPASIR-UP (Fazekas, Niemetz, Preiner, Kirchweger, Szeider and Biere,
//! 2023). Not done: keeping a given reason in the store, so that it need not be asked for again.
ghost use Rattle.std.specs.Prelude.{◌≡◌, ◌<◌, ℕ, length, IfOk, IfErr};
ghost use Rattle.trail_state.specs.Trail.{step};
ghost use Rattle.theory_bridge.specs.Shown.{facing};
ghost use Rattle.theory_bridge.specs.Going.{Asked, Ended};
ghost use Rattle.rooted_trails.specs.Rooted.{IsImpliedAt};
ghost use Rattle.lazy_reasons.specs.Facing.{IsReady, IsAskDue};
ghost use Rattle.lazy_reasons.specs.Sources.{IsLive, IsSource, AreMetBut, source_lits};

use clause_store::store::Store;
use sat_model::lists::{ClauseId, Lits};
use sat_model::literal::Lit;
use std::alloc::Global;
use theory_bridge::bridge::Bridge;
use theory_bridge::stop::AskStop;
use trail_state::reason::Reason;
use trail_state::trail::Trail;

/// A reason.
#[derive(Drop)]
pub enum Source {
    /// A live clause of the store.
    Stored(ClauseId),
    /// The literals that the theory gave.
    Given(Lits),
}

impl Source {
    /// The literals of the reason. A clause of the store must be live.
    pub fn lits<'a>(&'a self, store: &'a Store) -> &'a [Lit]
        requires { IsLive store.now self.now }
        ensures { result.now ≡ source_lits store.now self.now }
    {
        match self {
            Source::Stored(id) => store.get(*id),
            Source::Given(lits) => lits.as_slice(),
        }
    }
}

/// The reason of the literal at a place above the root that was not decided. Where the theory implied it, the box is asked: that
/// is one callback. The box must be in step, the trail rooted in the store and in what the theory admits, the seen trail must
/// mirror it, and what the theory implied must be explained; all of that is kept, whatever is answered. The reason holds the
/// literal, its other literals are false at earlier places, and it follows from the clauses and from what the theory admits now.
///
/// `Callbacks` comes only where a literal stands above the root that the theory implied, and no callback is left: the bridge is
/// spent then, and the box is not called. `Memory` comes only where there was none.
pub fn source_at(
    alloc: Global,
    store: &Store,
    trail: &Trail,
    bridge: &mut Bridge,
    place: usize,
) -> Result<Source, AskStop>
    requires ready { IsReady store.now trail.now.steps (facing meaning bridge.old) }
    requires implied { IsImpliedAt trail.now.steps place }
    // The reason.
    ensures source { IfOk result (λ r. IsSource store.now (facing meaning bridge.new).means.admits trail.now.steps place r) }
    ensures from { IfOk result (λ r. AreMetBut store.now (facing meaning bridge.new).board.seen (step trail.now.steps place).lit (source_lits store.now r)) }
    // The bridge.
    ensures asked { Asked 1 (facing meaning bridge.old) (facing meaning bridge.new) }
    ensures ended { Ended result (facing meaning bridge.old) (facing meaning bridge.new) }
    ensures due { IfErr result (λ e. IsAskDue e trail.now.steps) }
    ensures ready { IsReady store.now trail.now.steps (facing meaning bridge.new) }
{
    trail.law_shape();
    // A trail has fewer than 2^32 places.
    trail.law_room();
    match trail.reason_at(place as u32) {
        Reason::Decision => unreachable!(),
        Reason::Clause(id) => Ok(Source::Stored(id)),
        Reason::Theory => {
            let lit = trail.lits()[place];
            let mut given = Lits::new(alloc);
            bridge.ask_reason(lit, &mut given)?;
            Ok(Source::Given(given))
        }
    }
}
