//! The cardinalities that wait to be looked at.
//!
//! A cardinality waits from when something in it changed so that something may follow from it, until
//! it was looked at and nothing did. It waits once, however often it changes meanwhile, and is told
//! from those that do not wait in constant time: so the queue is a work list (a sparse set: Briggs
//! and Torczon, "An efficient representation for sparse sets", 1993). The order in which they are
//! looked at is of no concern; the last one comes first, which costs nothing there. There is room for
//! each from when it was admitted, so that to let one wait never fails.
ghost use Rattle.std.specs.Prelude.{◌≡◌, ◌<◌, ◌||◌, ◌==◌, ℕ, [], true, IfSome, IfNone};
ghost use Rattle.sat_terms.specs.Literal.{has};
ghost use Rattle.card_propagator.specs.Queue.{TakenOut};

use crate::id::CardId;
use flag_set::work::WorkList;

// Takes one out that waits, if there is one.
pub(crate) fn pop(queue: &mut WorkList<CardId>) -> Option<CardId>
    ensures some { IfSome result (λ id. TakenOut queue.old queue.new id) }
    ensures none { IfNone result (queue.old.members ≡ []) }
    ensures left { IfNone result (queue.new ≡ queue.old) }
{
    let count = queue.as_slice().len();
    if count == 0 {
        return None;
    }
    let id = queue.as_slice()[count - 1];
    queue.take_out(id);
    Some(id)
}

// Lets one wait, if it does not. There must be room for it.
pub(crate) fn put(queue: &mut WorkList<CardId>, id: CardId)
    requires { id < queue.old.room }
    ensures members { (k : ℕ) → has queue.new.members k ≡ (has queue.old.members k || id == k) }
    ensures room { queue.new.room ≡ queue.old.room }
{
    queue.put(id);
}

// Lets each of a list wait. There must be room for them.
pub(crate) fn put_each(queue: &mut WorkList<CardId>, ids: &[CardId])
    requires { (k : ℕ) → has ids.now k ≡ true → k < queue.old.room }
    ensures members { (k : ℕ) → has queue.new.members k ≡ (has queue.old.members k || has ids.now k) }
    ensures room { queue.new.room ≡ queue.old.room }
{
    for id in ids {
        queue.put(*id);
    }
}
