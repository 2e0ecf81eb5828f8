//! Identities of polynomials, with numbers modulo m as coefficients, decided by computing. The proofs of fields, curves and rings above
//! stand on it.
#![tactic(auto)]

ghost use Rattle.std.specs.Prelude.{◌≡◌, ◌<◌, true, List, ℕ};
ghost use Rattle.sshpolynomials.specs.Polynomials.{AllHold, AreLow, Expr, Given, combined, is_none, number, poly_of, ◌⊖◌};

/// The law of identities: two expressions have one number modulo m if the polynomial of their difference, less what is given, each
/// difference times its cofactor, has no coefficient but 0.
pub fn identity_law()
    ensures { (m : ℕ) (a b : Expr) (facts : List Given) (variables : List ℕ) → AreLow m variables → 0 < m → AllHold m variables facts
        → is_none (poly_of m (a ⊖ b ⊖ combined facts)) ≡ true → number m variables a ≡ number m variables b }
{}
