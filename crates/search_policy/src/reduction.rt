//! Which clauses a reduction names.
//!
//! A learned clause may be forgotten: the stored ones imply it. It is kept where it is a reason on
//! the trail, has one literal, or has a glue of at most 2, since such clauses pay for themselves
//! (Audemard and Simon 2009). Of the others the half of the greatest glue goes; at equal glue the
//! older id goes first, which as ids are given again is the lesser one.
ghost use Rattle.std.specs.Prelude.{IfOk};
ghost use Rattle.search_policy.specs.Reduction.{IsReduction};

use crate::candidates::{first_half, gather};
use crate::marks::reasons;
use clause_store::store::Store;
use sat_model::lists::Ids;
use sat_model::memory::Memory;
use std::alloc::Global;
use trail_state::trail::Trail;

// The clauses that a reduction names.
pub(crate) fn reduction(alloc: Global, store: &Store, trail: &Trail) -> Result<Ids, Memory>
    ensures { IfOk result (IsReduction store.now trail.now.steps) }
{
    let marks = reasons(alloc, store, trail)?;
    let mut candidates = gather(alloc, store, &marks, store.redundant_ids())?;
    candidates.sort_unstable();
    first_half(alloc, candidates.as_slice())
}
