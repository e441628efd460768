//! Parts of a text between separators.

ghost use Rattle.std.specs.Prelude.{◌≡◌, ◌==◌, ◌<◌, ◌∷◌, [], length, position, MatchOption, IfSome};
ghost use Rattle.std.specs.List.{slice_split};

/// What comes before the first separator, and what follows it; `None` if there is no separator.
pub fn split_once(bytes: &[u8], separator: u8) -> Option<(&[u8], &[u8])>
    ensures split { MatchOption result (slice_split (λ b. b == separator) bytes.now ≡ bytes.now ∷ [])
        (λ p. slice_split (λ b. b == separator) bytes.now ≡ p.0.now ∷ slice_split (λ b. b == separator) p.1.now) }
    ensures shorter { IfSome result (λ p. length p.1.now < length bytes.now) }
{
    let Some(at) = first_at(bytes, separator) else {
        return None;
    };
    Some((&bytes[..at], &bytes[at + 1..]))
}

/// The place of the first byte that is this one.
fn first_at(bytes: &[u8], wanted: u8) -> Option<usize>
    ensures { result ≡ position (λ b. b == wanted) bytes.now }
{
    bytes.iter().position(|b| *b == wanted)
}
