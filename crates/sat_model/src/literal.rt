//! Variables and literals.
ghost use Rattle.std.specs.Prelude.{◌≡◌, ◌+◌, ◌*◌, ◌%◌, ◌==◌, ◌<◌, ◌≤◌, ◌↔◌, ◌^◌, IsSome, IfSome, IsTrue, ℤ};
ghost use Rattle.sat_terms.specs.Literal.{var_of, neg as opposite, pos_lit, neg_lit, code_of, IsLiteral, IsVariable};

use std::marker::Model;

/// The greatest variable.
pub const MAX_VAR: u32 = 4_194_303;

/// The most literals of an input, and of what a solver is handed, 2^27.
pub const MAX_LITERALS: u64 = 134_217_728;

/// A variable. Contracts see its number, from 1 to `MAX_VAR`.
#[derive(Clone, Copy, Debug, PartialEq, Eq, PartialOrd, Ord, Hash)]
pub struct Var {
    // From 1 to `MAX_VAR`.
    number: u32,
}

impl Model for Var {
    ghost use Rattle.std.specs.Prelude.{ℕ};
    ghost use Rattle.sat_terms.specs.Literal.{IsVariable};

    ghost Value = { ℕ };

    ghost view = { λ v. v.number };

    ghost invariant = { λ v. IsVariable v.number };

    ghost inverse = { λ n. record { number = n } };
}

impl Var {
    /// The variable of this number. `None` exactly for 0 and for numbers above `MAX_VAR`.
    pub fn new(n: u32) -> Option<Var>
        ensures exists { IsSome result ↔ IsVariable n }
        ensures value { IfSome result (λ v. v ≡ n) }
    {
        if n == 0 || n > MAX_VAR {
            None
        } else {
            Some(Var { number: n })
        }
    }

    /// Its number.
    pub fn index(self) -> u32
        ensures value { result ≡ self }
        ensures range { IsVariable result }
    {
        self.number
    }

    /// The literal that is true where the variable is.
    #[tactic(auto, unfolding(sat_terms::specs::Literal::pos_lit))]
    pub fn positive(self) -> Lit
        ensures { result ≡ pos_lit self }
    {
        Lit {
            code: 2 * self.number,
        }
    }

    /// The literal that is true where the variable is not.
    #[tactic(auto, unfolding(sat_terms::specs::Literal::neg_lit))]
    pub fn negative(self) -> Lit
        ensures { result ≡ neg_lit self }
    {
        Lit {
            code: 2 * self.number + 1,
        }
    }
}

/// A variable or its negation. Contracts see its code, which is `2v` for the variable `v` and `2v + 1` for its negation.
#[derive(Clone, Copy, Debug, PartialEq, Eq, PartialOrd, Ord, Hash)]
pub struct Lit {
    // Twice the variable, and one more for the negation.
    code: u32,
}

impl Model for Lit {
    ghost use Rattle.std.specs.Prelude.{ℕ};
    ghost use Rattle.sat_terms.specs.Literal.{IsLiteral};

    ghost Value = { ℕ };

    ghost view = { λ l. l.code };

    ghost invariant = { λ l. IsLiteral l.code };

    ghost inverse = { λ n. record { code = n } };
}

/// The literal of variable 1, with which a short list fills its unused places.
impl Default for Lit {
    fn default() -> Lit {
        Lit { code: 2 }
    }
}

impl Lit {
    /// The literal that DIMACS writes as this number. `None` exactly for 0 and where the absolute value is above `MAX_VAR`.
    pub fn new(n: i32) -> Option<Lit>
        ensures exists { IsSome result ↔ IsLiteral (code_of n) }
        ensures value { IfSome result (λ l. l ≡ code_of n) }
    {
        let variable = n.unsigned_abs();
        if variable == 0 || variable > MAX_VAR {
            None
        } else if n < 0 {
            Some(Lit {
                code: 2 * variable + 1,
            })
        } else {
            Some(Lit { code: 2 * variable })
        }
    }

    /// The number as which DIMACS writes it.
    pub fn number(self) -> i32
        ensures { code_of result ≡ self }
    {
        let variable = (self.code / 2) as i32;
        if self.code % 2 == 1 {
            -variable
        } else {
            variable
        }
    }

    /// The opposite literal.
    #[tactic(auto, unfolding(sat_terms::specs::Literal::neg))]
    pub fn neg(self) -> Lit
        ensures { result ≡ opposite self }
    {
        if self.code % 2 == 1 {
            Lit {
                code: self.code - 1,
            }
        } else {
            Lit {
                code: self.code + 1,
            }
        }
    }

    /// Its variable.
    #[tactic(auto, unfolding(sat_terms::specs::Literal::var_of))]
    pub fn var(self) -> Var
        ensures value { result ≡ var_of self }
        ensures range { IsVariable (var_of self) }
    {
        Var {
            number: self.code / 2,
        }
    }

    /// Whether it is a variable, and not the negation of one.
    pub fn is_positive(self) -> bool
        ensures { result ≡ (self % 2 == 0) }
    {
        self.code % 2 == 0
    }

    /// Its code, `2v` for the variable `v` and `2v + 1` for its negation.
    pub fn code(self) -> u32
        ensures value { result ≡ self }
        ensures range { IsLiteral result }
    {
        self.code
    }
}
