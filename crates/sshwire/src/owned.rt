//! For the crates above this one, and no part of SSH: a value that owns memory, beside a result that may be a failure. Each function is
//! generic, so that the proof of a caller doesn't look into what its value owns.

ghost use Rattle.std.specs.Prelude.{◌≡◌, Err, IfErr, IfOk, Ok};

/// The value, where the work on it is done; else the work's fault.
pub fn once<T: Drop, E: Drop>(value: T, done: Result<(), E>) -> Result<T, E>
    ensures value { IfOk result (λ v. v ≡ value) }
    ensures done { IfOk result (λ _. done ≡ Ok tt) }
    ensures fault { IfErr result (λ fault. done ≡ Err fault) }
{
    match done {
        Ok(()) => Ok(value),
        Err(fault) => Err(fault),
    }
}

/// The first value beside the other, where there is another; else the other's fault.
pub fn beside<A: Drop, B: Drop, E: Drop>(first: A, other: Result<B, E>) -> Result<(A, B), E>
    ensures first { IfOk result (λ two. two.0 ≡ first) }
    ensures other { IfOk result (λ two. other ≡ Ok two.1) }
    ensures fault { IfErr result (λ fault. other ≡ Err fault) }
{
    match other {
        Ok(other) => Ok((first, other)),
        Err(fault) => Err(fault),
    }
}
