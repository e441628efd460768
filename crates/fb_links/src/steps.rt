ghost use Rattle.std.specs.Prelude.{◌≡◌, ◌≤◌, ◌<◌, ◌^◌, ◌++◌, length, take, drop, if◌then◌else◌, OnOk, OnErr, IfOk};
ghost use Rattle.fb_links.specs.Walks.{walk_weight, start_of, end_of, meeting_vertex, ending_at, starting_at, turned_walk, turned_step, is_end, joined_walk};
ghost use Rattle.fb_links.specs.InternalKept.{IsInside, walk_in};

use crate::span::Span;
use crate::{NoMemory, Step};
use std::alloc::Global;

/// The sum of the steps' weights.
pub fn weight_of(steps: &[Step]) -> u64
    requires { walk_weight steps.now < 2 ^ 64 }
    ensures { result ≡ walk_weight steps.now }
{
    let mut weight: u64 = 0;
    for step in steps {
        weight += step.weight;
    }
    weight
}

/// The first vertex of the walk, or 0 if it has no step.
pub fn start_of(steps: &[Step]) -> u32
    ensures { result ≡ start_of steps.now }
{
    match steps {
        [] => 0,
        [first, ..] => first.from,
    }
}

/// The last vertex of the walk, or 0 if it has no step.
pub fn end_of(steps: &[Step]) -> u32
    ensures { result ≡ end_of steps.now }
{
    match steps.last() {
        Some(last) => last.to,
        None => 0,
    }
}

/// A copy of the walk.
pub fn copied(alloc: Global, steps: &[Step]) -> Result<Vec<Step>, NoMemory>
    ensures { IfOk result (λ w. w.items ≡ steps.now) }
{
    Vec::from_slice(alloc, steps)
}

/// Adds the walks of two spans of the table at its end, joined at the vertex where they meet.
pub fn push_joined(steps: &mut Vec<Step>, a: Span, b: Span) -> Result<(), NoMemory>
    requires first { IsInside steps.old.items a }
    requires second { IsInside steps.old.items b }
    ensures ok { OnOk result (let old = steps.old.items in
        steps.new.items ≡ old ++ joined_walk (walk_in old a) (walk_in old b)) }
    ensures kept { take (length steps.old.items) steps.new.items ≡ steps.old.items }
{
    let v = meeting_vertex(a.of(steps), b.of(steps));
    push_ending_at(steps, a, v)?;
    push_starting_at(steps, b, v)
}

/// The vertex where the two walks meet, if they share an end.
fn meeting_vertex(a: &[Step], b: &[Step]) -> u32
    ensures { result ≡ meeting_vertex a.now b.now }
{
    let end = end_of(a);
    if is_end(b, end) { end } else { start_of(a) }
}

fn is_end(steps: &[Step], v: u32) -> bool
    ensures { result ≡ is_end steps.now v }
{
    v == start_of(steps) || v == end_of(steps)
}

/// Adds a copy of the walk of a span, reversed if it does not end at the vertex.
fn push_ending_at(steps: &mut Vec<Step>, span: Span, v: u32) -> Result<(), NoMemory>
    requires { IsInside steps.old.items span }
    ensures ok { OnOk result (let old = steps.old.items in
        steps.new.items ≡ old ++ ending_at v (walk_in old span)) }
    ensures err { OnErr result (steps.new.items ≡ steps.old.items) }
{
    let turned = v != end_of(span.of(steps));
    push_copy(steps, span, turned)
}

/// Adds a copy of the walk of a span, reversed if it does not begin at the vertex.
fn push_starting_at(steps: &mut Vec<Step>, span: Span, v: u32) -> Result<(), NoMemory>
    requires { IsInside steps.old.items span }
    ensures ok { OnOk result (let old = steps.old.items in
        steps.new.items ≡ old ++ starting_at v (walk_in old span)) }
    ensures err { OnErr result (steps.new.items ≡ steps.old.items) }
{
    let turned = v != start_of(span.of(steps));
    push_copy(steps, span, turned)
}

/// Adds a copy of the walk of a span, reversed if that is asked for.
fn push_copy(steps: &mut Vec<Step>, span: Span, turned: bool) -> Result<(), NoMemory>
    requires { IsInside steps.old.items span }
    ensures ok { OnOk result (let walk = walk_in steps.old.items span in
        steps.new.items ≡ steps.old.items ++ (if turned then turned_walk walk else walk)) }
    ensures err { OnErr result (steps.new.items ≡ steps.old.items) }
{
    let from = steps.len();
    steps.extend_from_within(span.start..span.end)?;
    if turned {
        turn_from(steps, from);
    }
    Ok(())
}

/// Reverses the walk that begins at this place of the list: the steps from there on lead back.
pub fn turn_from(steps: &mut Vec<Step>, from: usize)
    requires { from ≤ length steps.old.items }
    ensures { let old = steps.old.items in
        steps.new.items ≡ take from old ++ turned_walk (drop from old) }
{
    turn(&mut steps[from..]);
}

/// Reverses the walk: from its last vertex back to its first.
fn turn(steps: &mut [Step])
    ensures { steps.new ≡ turned_walk steps.old }
{
    steps.reverse();
    for step in steps {
        *step = turned_step(step);
    }
}

/// The step in the other direction.
fn turned_step(step: &Step) -> Step
    ensures { result ≡ turned_step step.now }
{
    Step {
        from: step.to,
        to: step.from,
        edge: step.edge,
        weight: step.weight,
    }
}
