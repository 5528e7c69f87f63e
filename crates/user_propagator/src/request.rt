//! What a propagator asks of the solver.

use sat_model::lists::Lits;
use sat_model::literal::Var;

/// What a propagator asks for in a callback, or leaves there. The solver does it once the
/// callback has returned, and takes the request off the desk only when it is done.
#[derive(Drop)]
pub enum Request {
    /// To observe a variable.
    Observe(Var),
    /// To add a clause; the flag says whether it may be forgotten.
    Clause(Lits, bool),
    /// To go back to a level.
    Back(u32),
}
