ghost use Rattle.std.specs.Prelude.{ℕ, ◌≡◌, ◌+◌, ◌<◌, ◌≤◌, true, List, length, get_or, All, IfNone, IfSome};
ghost use Rattle.fb_graph.specs.Covers.{AreRoles};
ghost use Rattle.fb_obstacles.specs.Obstacles.{BearOne, HavePlusParity, AreMinusBounded, AreMinusLive, slack_at, roles_by};
ghost use Rattle.fb_obstacles.specs.Watched.{AreBounded};
ghost use Rattle.fb_obstacles.specs.InternalLooks.{HasScanned, HasScannedAfter, IsMinusLook, IsSeen, LimitsMinus, both_looks, fits_within, minus_tops};
ghost use Rattle.fb_obstacles.specs.InternalWatch.{IsNext};

use crate::ends::keeps_dual;
use crate::looking::{Look, look_between};
use crate::shrinking::look_at_minus;
use crate::watching::Watch;
use fb_graph::{Scope, Steps};
use fb_regions::{Regions, Roles};
use std::sync::ledger::Ledger;

/// The place of the next edge to be looked at before this place: the last one, if it doesn't wait in the queue, or else
/// one that is taken out of it since its bound doesn't show that it bears what the look allows.
fn next_place(watch: &mut Watch, place: usize, least: Look) -> Option<usize>
    requires queued { watch.old.queued ≤ place }
    requires within { place ≤ length watch.old.edges }
    ensures next { IfSome result (IsNext watch.old watch.new place) }
    ensures rest { IfNone result ((i : ℕ) → i < place → fits_within least (get_or watch.new.bounds i 0) ≡ true) }
    ensures unchanged { IfNone result (watch.new ≡ watch.old) }
{
    watch.keeps();
    if watch.queued() < place {
        return Some(place - 1);
    }
    let limit = match least {
        Look::Within(bound) => bound.checked_mul(2),
        _ => None,
    };
    if watch.pop_due(limit) {
        Some(place - 1)
    } else {
        None
    }
}

/// Both looks in one, the other one being at this edge, which is kept in mind if it limits the step.
fn with_look(watch: &mut Watch, edge: u32, least: Look, look: Look) -> Look
    ensures both { result ≡ both_looks least look }
    ensures same { watch.new ≡ watch.old }
{
    let both = least.and(look);
    match (least, both) {
        (Look::Clear, Look::Clear) => {}
        (Look::Within(before), Look::Within(now)) if before == now => {}
        _ => watch.set_limiting(edge),
    }
    both
}

/// What a scan of the watched edges found, and how far it came.
struct Scan {
    /// What the minus nodes and the edges allow.
    look: Look,
    /// The place of the last edge that was looked at.
    place: usize,
}

/// A look at the minus node that is due first and the watched edges, up to the first obstacle. Passes over each edge whose bound
/// shows that it bears what the others allow, without a look at the bounds of those that wait in the queue with a later one. Sets the bound
/// of each edge that it looks at to what it bears in these roles, and puts it into the queue again. An edge both of whose ends
/// one outer node holds never limits the step: if the look finds one, it is watched no longer.
pub fn look_by_bounds<S: Scope, R: Roles, L: Ledger>(
    watch: &mut Watch,
    scope: &S,
    regions: &Regions<S>,
    roles: &R,
    looks: &mut Steps<L>,
) -> Look
    requires same { regions.now.scope ≡ scope.now }
    requires roles { AreRoles (roles_by (R.role_of roles.now)) regions.now.nodes }
    requires live { AreMinusLive (roles_by (R.role_of roles.now)) regions.now.nodes }
    requires minus { AreMinusBounded (roles_by (R.role_of roles.now)) regions.now.nodes watch.old }
    requires parity { HavePlusParity (roles_by (R.role_of roles.now)) regions.now.nodes }
    requires within { All (λ k. k < length (S.problem scope.now).edges) watch.old.edges }
    requires bounded { AreBounded (slack_at (S.problem scope.now) (roles_by (R.role_of roles.now)) regions.now.nodes) watch.old }
    ensures scanned { HasScanned (S.problem scope.now) (R.role_of roles.now) regions.now.nodes (minus_tops (roles_by (R.role_of roles.now)) regions.now.nodes) watch.old watch.new result }
    ensures first { IsMinusLook result → BearOne (S.problem scope.now) (roles_by (R.role_of roles.now)) regions.now.nodes watch.old.edges }
    ensures minus { AreMinusBounded (roles_by (R.role_of roles.now)) regions.now.nodes watch.new }
    ensures looks { (looks.old ≤ looks.new) × (looks.new ≤ looks.old + length watch.old.edges) }
{
    keeps_seen(watch, scope, regions, roles);
    let Scan { look, place } = scan_by_bounds(watch, scope, regions, roles, looks);
    watch.requeue(place);
    look
}

/// Does nothing. Its clause says what is known of the state that edges are looked at in.
fn keeps_seen<S: Scope, R: Roles>(watch: &Watch, scope: &S, regions: &Regions<S>, roles: &R)
    requires same { regions.now.scope ≡ scope.now }
    requires roles { AreRoles (roles_by (R.role_of roles.now)) regions.now.nodes }
    requires parity { HavePlusParity (roles_by (R.role_of roles.now)) regions.now.nodes }
    requires within { All (λ k. k < length (S.problem scope.now).edges) watch.now.edges }
    ensures { IsSeen (S.problem scope.now) (R.role_of roles.now) regions.now.nodes watch.now.edges }
{
    keeps_dual(regions);
    scope.limits();
}

/// The look, whose edges are not put into the queue again. If a minus node is an obstacle, a tight edge comes before it, since
/// an edge may end the search, and a blossom that is opened, or a layer that is taken off, for a node that soon grows again is
/// work for nothing. Then only edges whose bounds don't show that they bear a step of length 1 are looked at.
fn scan_by_bounds<S: Scope, R: Roles, L: Ledger>(
    watch: &mut Watch,
    scope: &S,
    regions: &Regions<S>,
    roles: &R,
    looks: &mut Steps<L>,
) -> Scan
    requires same { regions.now.scope ≡ scope.now }
    requires live { AreMinusLive (roles_by (R.role_of roles.now)) regions.now.nodes }
    requires minus { AreMinusBounded (roles_by (R.role_of roles.now)) regions.now.nodes watch.old }
    requires seen { IsSeen (S.problem scope.now) (R.role_of roles.now) regions.now.nodes watch.old.edges }
    requires bounded { AreBounded (slack_at (S.problem scope.now) (roles_by (R.role_of roles.now)) regions.now.nodes) watch.old }
    ensures scanned { HasScanned (S.problem scope.now) (R.role_of roles.now) regions.now.nodes (minus_tops (roles_by (R.role_of roles.now)) regions.now.nodes) watch.old watch.new result.look }
    ensures first { IsMinusLook result.look → BearOne (S.problem scope.now) (roles_by (R.role_of roles.now)) regions.now.nodes watch.old.edges }
    ensures minus { AreMinusBounded (roles_by (R.role_of roles.now)) regions.now.nodes watch.new }
    ensures looks { (looks.old ≤ looks.new) × (looks.new ≤ looks.old + length watch.old.edges) }
{
    let minus = look_at_minus(watch, regions, roles);
    let Look::Blocked(_) = minus else {
        return scan_edges(watch, scope, regions, roles, minus, looks);
    };
    let Scan { look, place } = scan_edges(watch, scope, regions, roles, Look::Within(1), looks);
    Scan {
        look: look.and(minus),
        place,
    }
}

/// A look at the watched edges after one at minus nodes, up to the first edge that is an obstacle. Goes from the last edge to
/// the first of those that don't wait in the queue: the last ones have no bound yet, and mostly limit the step.
fn scan_edges<S: Scope, R: Roles, L: Ledger>(
    watch: &mut Watch,
    scope: &S,
    regions: &Regions<S>,
    roles: &R,
    minus: Look,
    looks: &mut Steps<L>,
) -> Scan
    requires same { regions.now.scope ≡ scope.now }
    requires seen { IsSeen (S.problem scope.now) (R.role_of roles.now) regions.now.nodes watch.old.edges }
    requires bounded { AreBounded (slack_at (S.problem scope.now) (roles_by (R.role_of roles.now)) regions.now.nodes) watch.old }
    requires minus { (tops : List ℕ) × LimitsMinus (S.problem scope.now) (R.role_of roles.now) regions.now.nodes tops minus }
    ensures scanned { HasScannedAfter (S.problem scope.now) (R.role_of roles.now) regions.now.nodes minus watch.old watch.new result.look }
    ensures edges { IsMinusLook result.look → IsMinusLook minus }
    ensures nodes { watch.new.nodes ≡ watch.old.nodes }
    ensures looks { (looks.old ≤ looks.new) × (looks.new ≤ looks.old + length watch.old.edges) }
{
    watch.keeps();
    let mut place = watch.len();
    let mut least = minus;
    while let Some(at) = next_place(watch, place, least) {
        watch.keeps();
        place = at;
        if least.fits_within(watch.bound_at(at)) {
            continue;
        }
        let edge = watch.edges()[at];
        let Some(look) = look_between(edge, scope, regions, roles, looks) else {
            watch.take_out(at);
            continue;
        };
        watch.set_bound(at, look.bound());
        least = with_look(watch, edge, least, look);
        if let Look::Blocked(_) = least {
            return Scan { look: least, place };
        }
    }
    Scan { look: least, place }
}
