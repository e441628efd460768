//! Indices in texts.

ghost use Rattle.std.specs.Prelude.{◌≡◌, min, option_map};
ghost use Rattle.fb_shots_stim.specs.NamedDetectors.{index_of};

/// The number that the digits write, or `limit` if it is larger; `None` unless they are one digit or more.
pub fn index_of(digits: &[u8], limit: u32) -> Option<u32>
    ensures { result ≡ option_map (λ k. min k limit) (index_of digits.now) }
{
    if digits.is_empty() {
        return None;
    }
    let mut index: u64 = 0;
    for c in digits {
        if !c.is_ascii_digit() {
            return None;
        }
        index = (index * 10 + u64::from(*c - b'0')).min(u64::from(limit));
    }
    Some(index as u32)
}
