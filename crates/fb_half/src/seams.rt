//! The matches of a part to the boundary, found by the node of the plan that owns the vertex there.

ghost use Rattle.std.specs.Prelude.{◌≡◌, ◌≢◌, ◌==◌, ℕ, true, [], ◌∷◌, ◌++◌, map, length, if◌then◌else◌, IfOk, OnOk};
ghost use Rattle.fb_graph.specs.Parity.{is_in};
ghost use Rattle.fb_links.specs.Names.{name_by};
ghost use Rattle.fb_links.specs.Table.{is_live};
ghost use Rattle.fb_plan.specs.Plans.{owner_of};
ghost use Rattle.fb_plan.specs.Scopes.{scope_problem};
ghost use Rattle.fb_plan.specs.Vertices.{is_node};
ghost use Rattle.fb_half.specs.Merged.{IsPlanned};
ghost use Rattle.fb_half.specs.Seams.{far_end, names_under};
ghost use Rattle.fb_half.specs.Translations.{link_by};

use fb_graph::{NoMemory, Scope};
use fb_links::names::{Names, names_of};
use fb_links::{LinkId, Links, NodeId};
use fb_plan::NodeScope;
use std::alloc::Global;
use std::collections::BTreeMap;

/// The nodes of a part by the owner of the boundary vertex to which they are matched. A match to such a vertex lists its
/// node as it is made, and leaves it listed when it goes. So a fusion finds the matches to its seam without a look at others.
#[derive(Drop)]
pub struct Seams {
    names: BTreeMap<u32, Vec<NodeId>>,
}

impl Seams {
    /// The index that lists no node. Takes no memory.
    pub(crate) fn new(alloc: Global) -> Seams {
        Seams {
            names: BTreeMap::new(alloc),
        }
    }

    /// The index that lists no node.
    pub(crate) fn into_empty(self) -> Seams {
        let Seams { mut names } = self;
        names.clear();
        Seams { names }
    }

    /// Lists the node under the owner, if there is one.
    pub fn list(&mut self, alloc: Global, owner: Option<u32>, name: NodeId) -> Result<(), NoMemory>
        ensures { OnOk result ((o : ℕ) → names_under self.new o
            ≡ (if is_node o owner then names_under self.old o ++ name ∷ [] else names_under self.old o)) }
    {
        let Some(owner) = owner else {
            return Ok(());
        };
        let names = self.names.entry(owner)?.or_insert(Vec::new(alloc));
        names.push(name)?;
        Ok(())
    }

    /// Removes the nodes that are listed under the owner.
    pub(crate) fn take(&mut self, alloc: Global, owner: u32) -> Vec<NodeId>
        ensures taken { result.items ≡ names_under self.old owner }
        ensures others { (o : ℕ) → o ≢ owner → names_under self.new o ≡ names_under self.old o }
    {
        match self.names.remove(&owner) {
            Some(names) => names,
            None => Vec::new(alloc),
        }
    }

    /// Lists each of the nodes under the owner, by their new names.
    fn list_all(
        &mut self,
        alloc: Global,
        owner: u32,
        listed: &[NodeId],
        names: &Names,
    ) -> Result<(), NoMemory>
        ensures { OnOk result ((o : ℕ) → names_under self.new o
            ≡ (if owner == o then names_under self.old o ++ map (name_by names.now) listed.now else names_under self.old o)) }
    {
        for name in listed {
            self.list(alloc, Some(owner), names.of(*name))?;
        }
        Ok(())
    }

    /// The left index with the right one's nodes too, by their new names. Takes time for each of these.
    pub(crate) fn merged(
        alloc: Global,
        left: Seams,
        right: Seams,
        names: &[(NodeId, NodeId)],
    ) -> Result<Seams, NoMemory>
        ensures left { IfOk result (λ s. (o x : ℕ) → is_in (names_under left o) x ≡ true → is_in (names_under s o) x ≡ true) }
        ensures right { IfOk result (λ s. (o x : ℕ) → is_in (names_under right o) x ≡ true
            → is_in (names_under s o) (name_by names.now x) ≡ true) }
    {
        let new_names = names_of(alloc, names)?;
        let mut seams = left;
        for (owner, listed) in right.names {
            seams.list_all(alloc, owner, &listed, &new_names)?;
        }
        Ok(seams)
    }
}

/// The node of the plan that owns the link's end at the boundary of the scope.
pub fn far_owner(links: &Links, link: LinkId, scope: &NodeScope<'_>) -> Option<u32>
    requires live { is_live links.now link ≡ true }
    requires ends { IsPlanned scope.now.plan.now (link_by links.now link) }
    requires vertices { length scope.now.plan.now.owners ≡ scope.now.graph.now.vertices }
    ensures { result ≡ owner_of scope.now.plan.now
        (far_end (scope_problem scope.now).is_real (link_by links.now link)) }
{
    let (from, to) = links.ends(link);
    let far = if scope.is_real(from) { to } else { from };
    scope.plan.owner(far)
}
