ghost use Rattle.std.specs.Prelude.{◌≡◌, true, IfSome};
ghost use Rattle.fb_graph.specs.Problem.{Problem};
ghost use Rattle.fb_graph.specs.Covers.{AreRoles};
ghost use Rattle.fb_graph.specs.Dual.{is_live};
ghost use Rattle.fb_obstacles.specs.Obstacles.{AreMinusBounded, AreMinusLive, roles_by};
ghost use Rattle.fb_obstacles.specs.InternalLooks.{LimitsMinus, empty_layer, minus_tops, node_look, watched_look};

use crate::NodeId;
use crate::ends::keeps_dual;
use crate::looking::Look;
use crate::obstacle::Obstacle;
use crate::watching::Watch;
use fb_graph::Scope;
use fb_regions::{Regions, Role, Roles};

/// What a minus node is whose top layer has value 0.
fn empty_layer<S: Scope>(node: NodeId, regions: &Regions<S>) -> Obstacle
    requires { is_live regions.now.nodes node ≡ true }
    ensures { result ≡ empty_layer regions.now.nodes node }
{
    if regions.layer_count(node) > 1 {
        Obstacle::LayerEmpty(node)
    } else if regions.is_joined(node) {
        Obstacle::BlossomEmpty(node)
    } else {
        Obstacle::ZeroMinus(node)
    }
}

/// A look at one minus node.
fn look_at_node<S: Scope>(node: NodeId, regions: &Regions<S>) -> Look
    requires { is_live regions.now.nodes node ≡ true }
    ensures { result ≡ node_look regions.now.nodes node }
{
    let value = regions.top_value(node);
    if value == 0 {
        Look::Blocked(empty_layer(node, regions))
    } else {
        Look::Within(value)
    }
}

/// A look at a watched node, which allows all steps unless it is minus.
fn look_at_watched<S: Scope, R: Roles>(node: NodeId, regions: &Regions<S>, roles: &R) -> Look
    requires { AreMinusLive (roles_by (R.role_of roles.now)) regions.now.nodes }
    ensures { result ≡ watched_look (roles_by (R.role_of roles.now)) regions.now.nodes node }
{
    match roles.role(node) {
        Role::Minus => look_at_node(node, regions),
        Role::Plus => Look::Clear,
        Role::Out => Look::Clear,
    }
}

/// A look at all watched nodes, up to the first that is an obstacle.
fn look_at_each<S: Scope, R: Roles>(watch: &Watch, regions: &Regions<S>, roles: &R) -> Look
    requires roles { AreRoles (roles_by (R.role_of roles.now)) regions.now.nodes }
    requires live { AreMinusLive (roles_by (R.role_of roles.now)) regions.now.nodes }
    requires bounded { AreMinusBounded (roles_by (R.role_of roles.now)) regions.now.nodes watch.now }
    ensures { (p : Problem) → LimitsMinus p (R.role_of roles.now) regions.now.nodes
        (minus_tops (roles_by (R.role_of roles.now)) regions.now.nodes) result }
{
    keeps_dual(regions);
    let mut least = Look::Clear;
    for place in 0..watch.node_count() {
        least = least.and(look_at_watched(watch.node_at(place), regions, roles));
        if let Look::Blocked(_) = least {
            return least;
        }
    }
    least
}

/// A look at the node whose top layer may be empty first, if it is minus and its value is as low as its bound: then no other
/// top layer is empty before. If it isn't minus any longer it leaves the watch, and if its value is above its bound it waits.
fn look_at_first<S: Scope, R: Roles>(
    watch: &mut Watch,
    regions: &Regions<S>,
    roles: &R,
) -> Option<Look>
    requires roles { AreRoles (roles_by (R.role_of roles.now)) regions.now.nodes }
    requires live { AreMinusLive (roles_by (R.role_of roles.now)) regions.now.nodes }
    requires bounded { AreMinusBounded (roles_by (R.role_of roles.now)) regions.now.nodes watch.old }
    ensures limits { IfSome result (λ look. (p : Problem) → LimitsMinus p (R.role_of roles.now) regions.now.nodes
        (minus_tops (roles_by (R.role_of roles.now)) regions.now.nodes) look) }
    ensures bounded { AreMinusBounded (roles_by (R.role_of roles.now)) regions.now.nodes watch.new }
    ensures same { watch.new ≡ record watch.old { nodes = watch.new.nodes } }
{
    keeps_dual(regions);
    let node = watch.first_node()?;
    match roles.role(node) {
        Role::Minus => {
            if watch.settle_first_node(regions.top_value(node)) {
                return Some(look_at_node(node, regions));
            }
        }
        Role::Plus => watch.drop_first_node(),
        Role::Out => watch.drop_first_node(),
    }
    None
}

/// A look at all minus nodes. The one whose top layer is empty first is found without a look at the others, but for those that
/// have changed since they were entered.
pub fn look_at_minus<S: Scope, R: Roles>(watch: &mut Watch, regions: &Regions<S>, roles: &R) -> Look
    requires roles { AreRoles (roles_by (R.role_of roles.now)) regions.now.nodes }
    requires live { AreMinusLive (roles_by (R.role_of roles.now)) regions.now.nodes }
    requires bounded { AreMinusBounded (roles_by (R.role_of roles.now)) regions.now.nodes watch.old }
    ensures limits { (p : Problem) → LimitsMinus p (R.role_of roles.now) regions.now.nodes
        (minus_tops (roles_by (R.role_of roles.now)) regions.now.nodes) result }
    ensures bounded { AreMinusBounded (roles_by (R.role_of roles.now)) regions.now.nodes watch.new }
    ensures same { watch.new ≡ record watch.old { nodes = watch.new.nodes } }
{
    for _ in 0..watch.node_count() {
        if let Some(look) = look_at_first(watch, regions, roles) {
            return look;
        }
    }
    look_at_each(watch, regions, roles)
}
