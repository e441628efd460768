//! Tests of lists of numbers.

ghost use Rattle.std.specs.Prelude.{◌≡◌};
ghost use Rattle.fb_verify.specs.Verdicts.{first_beyond, first_fall};

/// The first number that isn't below the bound.
pub(crate) fn beyond(numbers: &[u32], bound: u32) -> Option<u32>
    ensures { result ≡ first_beyond bound numbers.now }
{
    numbers.iter().copied().find(|number| *number >= bound)
}

/// The first number that isn't above the one before it.
pub(crate) fn fall(numbers: &[u32]) -> Option<u32>
    ensures { result ≡ first_fall numbers.now }
{
    let (first, rest) = numbers.split_first()?;
    let mut before = *first;
    for number in rest {
        if *number <= before {
            return Some(*number);
        }
        before = *number;
    }
    None
}
