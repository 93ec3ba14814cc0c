//! What is copied part by part.
ghost use Rattle.std.specs.Prelude.{◌≡◌, Ok, IfOk};

use mlb_base::{NoMemory, TryCopy};

/// Both values, if there was memory for both.
pub fn both<A: Drop, B: Drop>(
    a: Result<A, NoMemory>,
    b: Result<B, NoMemory>,
) -> Result<(A, B), NoMemory>
    ensures first { IfOk result (λ both. a ≡ Ok both.0) }
    ensures second { IfOk result (λ both. b ≡ Ok both.1) }
{
    Ok((a?, b?))
}

/// Copies of both, if there was memory for both.
pub(crate) fn copied<A: TryCopy, B: TryCopy>(a: &A, b: &B) -> Result<(A, B), NoMemory>
    ensures first { IfOk result (λ both. both.0 ≡ a.now) }
    ensures second { IfOk result (λ both. both.1 ≡ b.now) }
{
    both(a.copy(), b.copy())
}
