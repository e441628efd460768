//! What the ranges that hold a vertex add up to, in time linear in the ranges and vertices.

ghost use Rattle.std.specs.Prelude.{◌≡◌, ℕ, ◌+◌, ◌<◌, ◌≤◌, ◌^◌, length, get_or, All, IfOk, OnOk};
ghost use Rattle.fb_plan.specs.InternalLoads.{IsClaim, bounded_at, load_at, place_of, weight_of};

use crate::parts::OwnedRange;
use fb_graph::NoMemory;
use std::alloc::Global;

/// What is added up: the ranges, or the numbers of their nodes.
#[derive(Clone, Copy)]
pub enum Measure {
    Ranges,
    Nodes,
}

/// The vertex where a range starts, or the one where it has ended.
#[derive(Clone, Copy)]
enum Bound {
    Start,
    End,
}

/// What a range counts.
fn weight(measure: Measure, claim: OwnedRange) -> u64
    ensures { result ≡ weight_of measure claim }
{
    match measure {
        Measure::Ranges => 1,
        Measure::Nodes => claim.node,
    }
}

fn place(bound: Bound, claim: OwnedRange) -> u32
    ensures { result ≡ place_of bound claim }
{
    match bound {
        Bound::Start => claim.start,
        Bound::End => claim.end,
    }
}

/// For each place the weights of the ranges whose bound it is.
fn sums_at(
    alloc: Global,
    vertices: u32,
    claims: &[OwnedRange],
    measure: Measure,
    bound: Bound,
) -> Result<Vec<u128>, NoMemory>
    requires { All (IsClaim vertices) claims.now }
    ensures few { OnOk result (length claims.now < 2 ^ 64) }
    ensures count { IfOk result (λ s. length s.items ≡ vertices + 1) }
    ensures each { IfOk result (λ s. (v : ℕ) → v ≤ vertices → get_or s.items v 0 ≡ bounded_at measure bound claims.now v) }
{
    let mut sums = vec![in alloc; 0u128; vertices as usize + 1]?;
    for claim in claims {
        let at = place(bound, *claim) as usize;
        let sum = sums[at] + u128::from(weight(measure, *claim));
        sums[at] = sum;
    }
    Ok(sums)
}

fn sum_at(sums: &[u128], v: u32) -> u128
    requires { v < length sums.now }
    ensures { result ≡ get_or sums.now v 0 }
{
    sums[v as usize]
}

/// For each vertex what the ranges that hold it add up to.
pub fn loads(
    alloc: Global,
    vertices: u32,
    claims: &[OwnedRange],
    measure: Measure,
) -> Result<Vec<u128>, NoMemory>
    requires { All (IsClaim vertices) claims.now }
    ensures count { IfOk result (λ s. length s.items ≡ vertices) }
    ensures each { IfOk result (λ s. (v : ℕ) → v < vertices → get_or s.items v 0 ≡ load_at measure claims.now v) }
{
    let opened = sums_at(alloc, vertices, claims, measure, Bound::Start)?;
    let closed = sums_at(alloc, vertices, claims, measure, Bound::End)?;
    let mut sums = Vec::new(alloc);
    let mut running = 0u128;
    for v in 0..vertices {
        running = running + sum_at(&opened, v) - sum_at(&closed, v);
        sums.push(running)?;
    }
    Ok(sums)
}
