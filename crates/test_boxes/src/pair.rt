//! One clause of two literals, as Imply and Reject know it.
//!
//! Both boxes hand their clause where the seen trail makes it false, and must do so under the same
//! law: they are steady, and a steady propagator hands in a callback only clauses that are false or
//! unit on the seen trail, over observed variables. That is tested here, once for both.
//!
//! A literal is lost where its variable is observed and the seen trail makes it false. The clause
//! is broken where both of its literals are lost, and then it is handed, not to be forgotten. The
//! answer says whether it was, so that a box that is asked about a model knows whether it refuted
//! the model.
//!
//! Why this is enough: a broken clause is false on the seen trail, its variables are observed, and
//! every assignment that the box admits makes it true, as admitting is just that. So the clause is
//! within reach, fair and quiet, which is all that the law of a callback asks of a handed clause.
//! Whether a variable is observed is asked beside the value, though one with a value on the seen
//! trail always is: the law speaks of observed variables, and the question costs one look.
//!
//! Left out: a clause that is unit might be handed too. Imply implies its literal instead, and
//! Reject keeps still until a model comes.
ghost use Rattle.std.specs.Prelude.{◌≡◌, true, false, Some, IfOk, OnErr};
ghost use Rattle.sat_terms.specs.Literal.{has, var_of};
ghost use Rattle.user_propagator.specs.Board.{trail_value};
ghost use Rattle.test_boxes.specs.Pair.{pair_desk, IsBroken};

use sat_model::literal::Lit;
use sat_model::memory::Memory;
use user_propagator::desk::Desk;

// Whether a literal is of an observed variable, and false on the seen trail.
fn is_lost(lit: Lit, desk: &Desk) -> bool
    ensures known { result ≡ true → has desk.now.observed (var_of lit) ≡ true }
    ensures lost { result ≡ true → trail_value desk.now.seen lit ≡ Some false }
{
    desk.is_observed(lit.var()) && desk.value(lit) == Some(false)
}

// Whether both literals are.
fn is_broken(first: Lit, second: Lit, desk: &Desk) -> bool
    ensures { result ≡ true → IsBroken desk.now first second }
{
    is_lost(first, desk) && is_lost(second, desk)
}

// Hands the clause where it is false on the seen trail, and says whether it did.
pub(crate) fn hand_if_broken(first: Lit, second: Lit, desk: &mut Desk) -> Result<bool, Memory>
    ensures desk { IfOk result (λ handed. desk.new ≡ pair_desk first second handed desk.old) }
    ensures broken { IfOk result (λ handed. handed ≡ true → IsBroken desk.old first second) }
    ensures err { OnErr result (desk.new ≡ desk.old) }
{
    if !is_broken(first, second, desk) {
        return Ok(false);
    }
    desk.hand(&[first, second], false)?;
    Ok(true)
}
