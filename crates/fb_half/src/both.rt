//! A value beside another that may not have been made.

ghost use Rattle.std.specs.Prelude.{◌≡◌, MatchResult, Ok, Err};

use fb_graph::NoMemory;

/// Both values, if the first was made.
pub fn both<A: Drop, B: Drop>(made: Result<A, NoMemory>, value: B) -> Result<(A, B), NoMemory>
    ensures { MatchResult result (λ pair. (made ≡ Ok pair.0) × (value ≡ pair.1)) (λ e. made ≡ Err e) }
{
    let made = made?;
    Ok((made, value))
}
