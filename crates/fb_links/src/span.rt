ghost use Rattle.std.specs.Prelude.{◌≡◌, true, Some, is_some};
ghost use Rattle.fb_links.specs.InternalKept.{IsInside, span_at, walk_in};

use crate::Step;

/// Where the steps of a link's walk are in the table of steps, and the sum of their weights.
#[derive(Clone, Copy)]
pub struct Span {
    pub start: usize,
    pub end: usize,
    pub weight: u64,
}

impl Span {
    /// The steps of the walk.
    pub fn of(self, steps: &[Step]) -> &[Step]
        requires { IsInside steps.now self }
        ensures { result.now ≡ walk_in steps.now self }
    {
        &steps[self.start..self.end]
    }
}

/// The span of the link of this number.
pub fn span_of(spans: &[Option<Span>], id: usize) -> Span
    requires { is_some (span_at spans.now id) ≡ true }
    ensures { span_at spans.now id ≡ Some result }
{
    let Some(Some(span)) = spans.get(id) else {
        unreachable!()
    };
    *span
}
