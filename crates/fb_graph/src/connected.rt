//! Whether a shot has a correction: the components of a scope, and the defects in them.

ghost use Rattle.std.specs.Prelude.{◌≡◌, ◌<◌, ℕ, min, length, All, IfNone};
ghost use Rattle.std.specs.List.{reduce};
ghost use Rattle.fb_graph.specs.Components.{IsFirstOdd};
ghost use Rattle.fb_graph.specs.Limits.{IsShotIn, with_shot};
ghost use Rattle.fb_graph.specs.Laws.{HasNoOddClosed};
ghost use Rattle.fb_graph.specs.InternalLabelling.{AreClear, AreOdd, AreOf, odd_labels};

use crate::scope::Scope;
use crate::shot::Shot;
use std::marker::Model;

/// The components of a scope, a whole graph or a part of it, which contracts see as the scope. Its problem
/// has no defects.
#[derive(Drop)]
pub struct Components<S: Scope> {
    pub(crate) scope: S,
    /// The least vertex of each vertex's component, as its label.
    pub(crate) labels: Vec<u32>,
    /// For each label, whether its component has a boundary vertex.
    pub(crate) bounded: Vec<bool>,
    /// For each label, the parity of a shot's defects. It is clear between calls.
    pub(crate) odd: Vec<bool>,
}

impl<S: Scope> Model for Components<S> {
    ghost use Rattle.fb_graph.specs.InternalLabelling.{IsServed};

    ghost Value = { S };

    ghost coded = { S.code };

    ghost view = { λ c. c.scope };

    ghost invariant = { λ c. IsServed (S.problem c.scope) c.labels.items c.bounded.items c.odd.items };
}

/// The least vertex of the first component, by least vertex, that has no boundary vertex and an odd number of the
/// shot's defects; `None` if there is none. It takes no memory, and time linear in the number of defects.
pub fn first_odd<S: Scope>(parts: &mut Components<S>, shot: &Shot) -> Option<u32>
    requires { IsShotIn (S.problem parts.old) shot.now }
    ensures first { IsFirstOdd (with_shot (S.problem parts.old) shot.now) result }
    ensures closed { IfNone result (HasNoOddClosed (with_shot (S.problem parts.old) shot.now)) }
    ensures unchanged { parts.new ≡ parts.old }
{
    let defects = shot.as_slice();
    let labels = parts.labels.as_slice();
    let bounded = parts.bounded.as_slice();
    let odd = parts.odd.as_mut_slice();
    count_defects(labels, odd, defects);
    let first = least_odd(labels, bounded, odd, defects);
    clear_counts(labels, odd, defects);
    first
}

/// Sets the flag of each label that an odd number of the defects have.
fn count_defects(labels: &[u32], odd: &mut [bool], defects: &[u32])
    requires room { length odd.old ≡ length labels.now }
    requires labels { All (λ label. label < length labels.now) labels.now }
    requires within { All (λ d. d < length labels.now) defects.now }
    requires clear { AreClear odd.old }
    ensures { AreOdd labels.now defects.now odd.new }
{
    for defect in defects {
        let label = labels[*defect as usize] as usize;
        odd[label] = !odd[label];
    }
}

/// The least of the labels that an odd number of the defects have, and no boundary vertex.
fn least_odd(labels: &[u32], bounded: &[bool], odd: &[bool], defects: &[u32]) -> Option<u32>
    requires room { length odd.now ≡ length labels.now }
    requires boundary { length bounded.now ≡ length labels.now }
    requires labels { All (λ label. label < length labels.now) labels.now }
    requires within { All (λ d. d < length labels.now) defects.now }
    ensures { result ≡ reduce min (odd_labels labels.now bounded.now odd.now defects.now) }
{
    defects
        .iter()
        .map(|defect| labels[*defect as usize])
        .filter(|label| odd[*label as usize] && !bounded[*label as usize])
        .min()
}

/// Clears the flags of the defects' labels. No other flags are set.
fn clear_counts(labels: &[u32], odd: &mut [bool], defects: &[u32])
    requires room { length odd.old ≡ length labels.now }
    requires labels { All (λ label. label < length labels.now) labels.now }
    requires within { All (λ d. d < length labels.now) defects.now }
    requires set { AreOf labels.now defects.now odd.old }
    ensures { AreClear odd.new }
{
    for defect in defects {
        odd[labels[*defect as usize] as usize] = false;
    }
}
