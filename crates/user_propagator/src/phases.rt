//! The phases that a propagator set: for each variable whether it is to be decided true.
//!
//! They are kept in a table by variable. Its memory is taken when a variable is observed, and the
//! table grows into it when a phase is first set, so setting one cannot fail.
ghost use Rattle.std.specs.Prelude.{◌≡◌, ◌<◌, ◌≤◌, ◌==◌, ℕ, Some, OnOk, if◌then◌else◌};
ghost use Rattle.std.specs.Prelude.{length, vec_capacity};
ghost use Rattle.sat_terms.specs.Literal.{var_of};
ghost use Rattle.user_propagator.specs.Board.{phase_on};

use sat_model::literal::{Lit, Var};
use sat_model::memory::Memory;

// Takes the memory of a variable's phase. The table stays, whatever is answered.
pub(crate) fn reach(phases: &mut Vec<Option<bool>>, var: Var) -> Result<(), Memory>
    ensures same { phases.new.items ≡ phases.old.items }
    ensures ok { OnOk result (var < vec_capacity phases.new) }
    ensures more { vec_capacity phases.old ≤ vec_capacity phases.new }
{
    let places = var.index() as usize + 1;
    if places > phases.len() {
        phases.reserve(places - phases.len())?;
    }
    Ok(())
}

// Grows the table to a variable's place, where there is memory for it.
fn grow(phases: &mut Vec<Option<bool>>, at: usize)
    requires { at < vec_capacity phases.old }
    ensures long { at < length phases.new.items }
    ensures same { (v : ℕ) → phase_on phases.new.items v ≡ phase_on phases.old.items v }
    ensures more { vec_capacity phases.old ≤ vec_capacity phases.new }
{
    if at < phases.len() {
        return;
    }
    match phases.resize(at + 1, None) {
        Ok(()) => {}
        Err(_) => unreachable!(),
    }
}

// Sets the phase of a literal's variable so that the literal is true.
pub(crate) fn set(phases: &mut Vec<Option<bool>>, lit: Lit)
    requires { var_of lit < vec_capacity phases.old }
    ensures phases { (v : ℕ) → phase_on phases.new.items v
        ≡ (if v == var_of lit then Some lit else phase_on phases.old.items v) }
    ensures more { vec_capacity phases.old ≤ vec_capacity phases.new }
{
    let at = lit.var().index() as usize;
    grow(phases, at);
    phases[at] = Some(lit.is_positive());
}

// The literal of a variable in the phase that was set last.
pub(crate) fn get(phases: &[Option<bool>], var: Var) -> Option<Lit>
    ensures { result ≡ phase_on phases.now var }
{
    let at = var.index() as usize;
    if at >= phases.len() {
        return None;
    }
    match phases[at] {
        Some(true) => Some(var.positive()),
        Some(false) => Some(var.negative()),
        None => None,
    }
}
