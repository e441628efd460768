ghost use Rattle.std.specs.Prelude.{◌≡◌, ◌≢◌, ℕ, ◌+◌, ◌-◌, ◌*◌, ◌<◌, ◌≤◌, ◌^◌, [], ◌∷◌, length, map, get_or, All, IfOk, IfErr, Ok, Err};
ghost use Rattle.std.specs.List.{range_with_len};
ghost use Rattle.fb_graph.specs.Limits.{most_vertices};
ghost use Rattle.fb_plan.specs.Plans.{IsPlan, most_units};
ghost use Rattle.fb_gen.specs.Lattice.{lattice_graph, lattice_of, vertex_count};
ghost use Rattle.fb_gen.specs.TimePlan.{first_round, range_of_rounds, unit_range, time_fusions, time_tree, time_plan_of};
ghost use Rattle.fb_gen.specs.InternalSharing.{IsShared, plain_join, join_of};

use crate::faults::GenFault;
use crate::levels::{Fusion, all_fusions};
use crate::shares::first_rounds;
use fb_graph::{Graph, NoMemory};
use fb_plan::{Join, Plan, PlanFault};
use std::alloc::Global;

/// How the rounds of a lattice are shared out among units.
#[derive(Clone, Copy)]
struct Sharing {
    distance: u64,
    rounds: u64,
    units: u64,
}

/// A list of one range.
fn one_range(alloc: Global, range: (u64, u64)) -> Result<Vec<(u64, u64)>, NoMemory>
    ensures { IfOk result (λ v. v.items ≡ range ∷ []) }
{
    let mut ranges = Vec::new(alloc);
    ranges.push(range)?;
    Ok(ranges)
}

impl Sharing {
    /// The vertices of the rounds from `start` up to and without `end`.
    fn range(self, start: u64, end: u64) -> (u64, u64)
        requires vertices { vertex_count self.distance self.rounds ≤ most_vertices }
        requires distance { self.distance < 2 ^ 32 }
        requires start { start ≤ self.rounds }
        requires end { end ≤ self.rounds }
        ensures { result ≡ range_of_rounds self.distance start end }
    {
        let sheet = self.distance * (self.distance + 1);
        (start * sheet, end * sheet)
    }

    /// The range of a unit.
    fn unit_range(self, firsts: &[u64], j: u64) -> (u64, u64)
        requires shared { IsShared self.rounds self.units }
        requires vertices { vertex_count self.distance self.rounds ≤ most_vertices }
        requires distance { self.distance < 2 ^ 32 }
        requires len { length firsts.now ≡ self.units + 1 }
        requires each { (k : ℕ) → k < self.units + 1 → get_or firsts.now k 0 ≡ first_round self.rounds self.units k }
        requires unit { j < self.units }
        ensures { result ≡ unit_range self.distance self.rounds self.units j }
    {
        self.range(firsts[j as usize], firsts[j as usize + 1] - 1)
    }

    /// The ranges of each unit.
    fn unit_ranges(self, alloc: Global, firsts: &[u64]) -> Result<Vec<Vec<(u64, u64)>>, NoMemory>
        requires shared { IsShared self.rounds self.units }
        requires vertices { vertex_count self.distance self.rounds ≤ most_vertices }
        requires distance { self.distance < 2 ^ 32 }
        requires len { length firsts.now ≡ self.units + 1 }
        requires each { (k : ℕ) → k < self.units + 1 → get_or firsts.now k 0 ≡ first_round self.rounds self.units k }
        ensures { IfOk result (λ v. map (λ ranges. ranges.items) v.items
            ≡ map (λ j. unit_range self.distance self.rounds self.units j ∷ []) (range_with_len 0 self.units)) }
    {
        let mut found = Vec::new(alloc);
        for j in 0..self.units {
            let range = self.unit_range(firsts, j);
            let ranges = one_range(alloc, range)?;
            found.push(ranges)?;
        }
        Ok(found)
    }

    /// The join of a fusion, by the round before the unit that its seam comes before.
    fn join(self, alloc: Global, firsts: &[u64], fusion: Fusion) -> Result<Join, NoMemory>
        requires shared { IsShared self.rounds self.units }
        requires vertices { vertex_count self.distance self.rounds ≤ most_vertices }
        requires distance { self.distance < 2 ^ 32 }
        requires len { length firsts.now ≡ self.units + 1 }
        requires each { (k : ℕ) → k < self.units + 1 → get_or firsts.now k 0 ≡ first_round self.rounds self.units k }
        requires seam { fusion.seam < self.units }
        ensures { IfOk result (λ join. plain_join join ≡ join_of self.distance self.rounds self.units fusion) }
    {
        let first = firsts[fusion.seam as usize];
        let range = self.range(first.saturating_sub(1), first);
        let seam = one_range(alloc, range)?;
        Ok(Join {
            left: fusion.left,
            right: fusion.right,
            seam,
        })
    }

    /// The joins of all fusions.
    fn joins(self, alloc: Global, firsts: &[u64], fusions: &[Fusion]) -> Result<Vec<Join>, NoMemory>
        requires shared { IsShared self.rounds self.units }
        requires vertices { vertex_count self.distance self.rounds ≤ most_vertices }
        requires distance { self.distance < 2 ^ 32 }
        requires len { length firsts.now ≡ self.units + 1 }
        requires each { (k : ℕ) → k < self.units + 1 → get_or firsts.now k 0 ≡ first_round self.rounds self.units k }
        requires seams { All (λ f. f.seam < self.units) fusions.now }
        ensures { IfOk result (λ v. map plain_join v.items
            ≡ map (join_of self.distance self.rounds self.units) fusions.now) }
    {
        let mut found = Vec::new(alloc);
        for fusion in fusions {
            let join = self.join(alloc, firsts, *fusion)?;
            found.push(join)?;
        }
        Ok(found)
    }

    /// The plan of these ranges and joins, which breaks no rule.
    fn plan(
        self,
        alloc: Global,
        graph: &Graph,
        units: &[Vec<(u64, u64)>],
        joins: &[Join],
    ) -> Result<Plan, NoMemory>
        requires shared { IsShared self.rounds self.units }
        requires lattice { graph.now ≡ lattice_graph self.distance self.rounds }
        requires units { map (λ ranges. ranges.items) units.now
            ≡ map (λ j. unit_range self.distance self.rounds self.units j ∷ []) (range_with_len 0 self.units) }
        requires joins { map plain_join joins.now
            ≡ map (join_of self.distance self.rounds self.units) (time_fusions self.units) }
        ensures plan { IfOk result (λ p. p ≡ time_tree self.distance self.rounds self.units) }
        ensures valid { IfOk result (IsPlan graph.now) }
    {
        match Plan::build(alloc, graph, units, joins) {
            Ok(plan) => Ok(plan),
            Err(fault) => match fault {
                PlanFault::NoMemory => Err(NoMemory),
                _ => unreachable!(),
            },
        }
    }

    /// The plan of these fusions, by the first round of each unit.
    fn plan_of_fusions(
        self,
        alloc: Global,
        graph: &Graph,
        firsts: &[u64],
        fusions: &[Fusion],
    ) -> Result<Plan, NoMemory>
        requires shared { IsShared self.rounds self.units }
        requires vertices { vertex_count self.distance self.rounds ≤ most_vertices }
        requires distance { self.distance < 2 ^ 32 }
        requires lattice { graph.now ≡ lattice_graph self.distance self.rounds }
        requires len { length firsts.now ≡ self.units + 1 }
        requires each { (k : ℕ) → k < self.units + 1 → get_or firsts.now k 0 ≡ first_round self.rounds self.units k }
        requires fusions { fusions.now ≡ time_fusions self.units }
        ensures plan { IfOk result (λ p. p ≡ time_tree self.distance self.rounds self.units) }
        ensures valid { IfOk result (IsPlan graph.now) }
    {
        let ranges = self.unit_ranges(alloc, firsts)?;
        let joins = self.joins(alloc, firsts, fusions)?;
        self.plan(alloc, graph, &ranges, &joins)
    }

    /// The plan of the lattice by time.
    fn plan_by_time(self, alloc: Global, graph: &Graph) -> Result<Plan, NoMemory>
        requires shared { IsShared self.rounds self.units }
        requires limit { self.rounds < 2 ^ 32 }
        requires vertices { vertex_count self.distance self.rounds ≤ most_vertices }
        requires distance { self.distance < 2 ^ 32 }
        requires lattice { graph.now ≡ lattice_graph self.distance self.rounds }
        ensures plan { IfOk result (λ p. p ≡ time_tree self.distance self.rounds self.units) }
        ensures valid { IfOk result (IsPlan graph.now) }
    {
        let firsts = first_rounds(alloc, self.rounds, self.units)?;
        let fusions = all_fusions(alloc, self.units)?;
        self.plan_of_fusions(alloc, graph, &firsts, &fusions)
    }
}

/// The plan of a lattice by time: `units` runs of rounds with one round between two of them, which are joined two and
/// two, level by level, by the rounds between them. A run is as long as another or one round longer, the longer ones
/// first. The graph is the lattice of this distance and number of rounds; a plan has 1 to 4,096 units.
pub fn time_plan(
    alloc: Global,
    graph: &Graph,
    distance: u32,
    rounds: u32,
    units: u32,
) -> Result<Plan, GenFault>
    requires lattice { lattice_of distance rounds ≡ Ok graph.now }
    requires some { 1 ≤ units }
    requires limit { units ≤ most_units }
    ensures ok { IfOk result (λ p. time_plan_of distance rounds units ≡ Ok p) }
    ensures valid { IfOk result (IsPlan graph.now) }
    ensures err { IfErr result (λ e. e ≢ GenFault.NoMemory → time_plan_of distance rounds units ≡ Err e) }
{
    if u64::from(rounds) < 2 * u64::from(units) - 1 {
        return Err(GenFault::TooFewRounds);
    }
    let sharing = Sharing {
        distance: u64::from(distance),
        rounds: u64::from(rounds),
        units: u64::from(units),
    };
    let Ok(plan) = sharing.plan_by_time(alloc, graph) else {
        return Err(GenFault::NoMemory);
    };
    Ok(plan)
}
