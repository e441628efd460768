//! What a nest with nothing unmatched is solved by (Edmonds 1965).

ghost use Rattle.fb_laws.specs.NestSolutions.{NestOpened, DefectsFirst, LeafLevel, NestResolved};

/// Any blossom of a nest may be opened, whatever its cuts. A node with children holds defects only in its children, so
/// that with all blossoms open the links match the defects; then the cuts of the nest certify the correction that the
/// links' walks make.
pub fn nest_resolved()
    ensures opened { NestOpened }
    ensures defects { DefectsFirst }
    ensures level { LeafLevel }
    ensures resolved { NestResolved }
{}
