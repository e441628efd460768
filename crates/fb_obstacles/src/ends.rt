ghost use Rattle.std.specs.Prelude.{◌≡◌, ◌<◌, true, length};
ghost use Rattle.fb_graph.specs.Problem.{edge_at, touches};
ghost use Rattle.fb_graph.specs.Dual.{IsDual};
ghost use Rattle.fb_regions.specs.Holders.{potential_by};
ghost use Rattle.fb_obstacles.specs.InnerEdges.{is_one_node};
ghost use Rattle.fb_obstacles.specs.InternalLooks.{AreEnds, IsEnd, cover_by, far_by, far_end, node_by, residue_by};

use crate::NodeId;
use fb_graph::Scope;
use fb_regions::{Holder, Regions, Role, Roles, residue_left};

/// What is over an end of an edge.
#[derive(Clone, Copy)]
pub enum Cover {
    /// A plus node.
    Plus(NodeId),
    /// A minus node.
    Minus,
    /// An outer node outside the tree.
    Out,
    /// Nothing: a real vertex that no node holds.
    Bare,
    /// Nothing: the boundary.
    Virtual,
}

/// Does nothing. Its clause says what every dual state keeps.
pub fn keeps_dual<S: Scope>(regions: &Regions<S>)
    ensures { IsDual (S.problem regions.now.scope) regions.now.nodes }
{
    regions.keeps();
}

/// A vertex, with the node that holds it and its potential.
#[derive(Clone, Copy)]
pub struct End {
    vertex: u32,
    holder: Option<Holder>,
}

impl End {
    /// The vertex as it is held in these regions.
    pub fn of<S: Scope>(vertex: u32, regions: &Regions<S>) -> End
        ensures { IsEnd regions.now.nodes vertex result }
    {
        End {
            vertex,
            holder: regions.holder(vertex),
        }
    }
}

/// The nodes that hold the ends of an edge, with the potentials of the ends.
#[derive(Clone, Copy)]
pub struct HolderPair {
    first: Option<Holder>,
    second: Option<Holder>,
}

impl HolderPair {
    /// The ends of the edge.
    pub fn of<S: Scope>(edge: u32, regions: &Regions<S>) -> HolderPair
        requires { edge < length (S.problem regions.now.scope).edges }
        ensures { AreEnds regions.now.nodes (edge_at (S.problem regions.now.scope).edges edge) result }
    {
        let (first, second) = regions.scope().ends(edge);
        HolderPair {
            first: regions.holder(first),
            second: regions.holder(second),
        }
    }

    /// The ends of an edge at this vertex.
    pub fn at<S: Scope>(end: End, edge: u32, regions: &Regions<S>) -> HolderPair
        requires below { edge < length (S.problem regions.now.scope).edges }
        requires touches { touches end.vertex (edge_at (S.problem regions.now.scope).edges edge) ≡ true }
        requires held { IsEnd regions.now.nodes end.vertex end }
        ensures { AreEnds regions.now.nodes (edge_at (S.problem regions.now.scope).edges edge) result }
    {
        let (first, second) = regions.scope().ends(edge);
        if first == end.vertex {
            HolderPair {
                first: end.holder,
                second: regions.holder(second),
            }
        } else {
            HolderPair {
                first: regions.holder(first),
                second: end.holder,
            }
        }
    }

    /// The residue of an edge of this weight: the weight less the potentials of both ends, or 0 if they are more.
    pub fn residue(self, weight: u64) -> u64
        ensures { result ≡ residue_by self weight }
    {
        residue_left(weight, potential_by(self.first), potential_by(self.second))
    }

    /// Whether one outer node holds both ends.
    pub fn are_under_one(self) -> bool
        ensures { result ≡ is_one_node (node_by self.first) (node_by self.second) }
    {
        match (self.first, self.second) {
            (Some(first), Some(second)) => first.node == second.node,
            _ => false,
        }
    }

    /// What a plus node grows towards along the edge.
    pub fn far<S: Scope, R: Roles>(self, edge: u32, scope: &S, roles: &R) -> Option<Cover>
        requires { edge < length (S.problem scope.now).edges }
        ensures { result ≡ far_by (S.problem scope.now) (R.role_of roles.now) (edge_at (S.problem scope.now).edges edge) self }
    {
        scope.limits();
        let (first, second) = scope.ends(edge);
        let first = cover_by(first, self.first, scope, roles);
        let second = cover_by(second, self.second, scope, roles);
        far_end(first, second)
    }
}

/// The potential of a vertex with this holder.
fn potential_by(holder: Option<Holder>) -> u64
    ensures { result ≡ potential_by holder }
{
    match holder {
        Some(holder) => holder.potential,
        None => 0,
    }
}

/// What is over a vertex with this holder.
fn cover_by<S: Scope, R: Roles>(v: u32, holder: Option<Holder>, scope: &S, roles: &R) -> Cover
    requires { v < (S.problem scope.now).vertices }
    ensures { result ≡ cover_by (R.role_of roles.now) ((S.problem scope.now).is_real v) (node_by holder) }
{
    match holder {
        Some(holder) => match roles.role(holder.node) {
            Role::Plus => Cover::Plus(holder.node),
            Role::Minus => Cover::Minus,
            Role::Out => Cover::Out,
        },
        None if scope.is_real(v) => Cover::Bare,
        None => Cover::Virtual,
    }
}

/// The end beside a plus node; none if no end is under a plus node, or one plus node is over both.
pub fn far_end(first: Cover, second: Cover) -> Option<Cover>
    ensures { result ≡ far_end first second }
{
    match (first, second) {
        (Cover::Plus(m), Cover::Plus(n)) if m == n => None,
        (Cover::Plus(_), far) => Some(far),
        (far, Cover::Plus(_)) => Some(far),
        _ => None,
    }
}
