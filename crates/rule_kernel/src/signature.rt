//! Signatures of clauses.
//!
//! Before two clauses are compared literal by literal, one word of each tells most pairs apart: a signature has 64 bits, one for each class
//! of variables by their number modulo 64, and a bit is set where a variable of its class stands in the clause (Eén and Biere, SAT 2005, who
//! hash the variables in the same way). A clause that lies within another one, or shortens it, has each of its variables there. So its
//! signature has no bit that the other one's lacks; and where it has one, nothing need be compared. In the other direction nothing
//! follows: two clauses whose signatures fit may still be apart.
//!
//! Variables and not literals are hashed, since a clause that shortens another one has a literal there negated. The signature is kept
//! beside the clause, where it is read without the clause's literals.
ghost use Rattle.firm_terms.specs.Signing.{IsSignature};

use sat_model::literal::Lit;

// The signature of a clause.
pub(crate) fn signature_of(lits: &[Lit]) -> u64
    ensures { IsSignature lits.now result }
{
    let mut bits: u64 = 0;
    for lit in lits {
        let place = lit.var().index() % 64;
        bits |= 1 << place;
    }
    bits
}
