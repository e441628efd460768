//! The way round a cycle.

ghost use Rattle.std.specs.Prelude.{◌≡◌, ◌+◌, ◌%◌, ◌<◌, ◌^◌, length};
ghost use Rattle.fb_blossoms.specs.Links.{link_after, node_after, place_after};

use crate::{CycleStep, LinkId, NodeId};

/// A way round a cycle to the place `end`. It begins at the place that is `steps` steps from there, onward or back.
#[derive(Clone, Copy)]
pub struct Round {
    pub onward: bool,
    pub end: usize,
    pub steps: usize,
}

/// One step of such a way: the link, and the nodes from which and to which it leads.
#[derive(Clone, Copy)]
pub struct Crossing {
    pub from: NodeId,
    pub link: LinkId,
    pub to: NodeId,
}

/// The place k steps from another, onward or back.
fn place_after(count: usize, onward: bool, start: usize, k: usize) -> usize
    requires start { start < count }
    requires steps { k < count }
    requires small { count < 2 ^ 63 }
    ensures same { result ≡ place_after count onward start k }
    ensures within { result < count }
{
    if onward {
        return if start + k < count {
            start + k
        } else {
            start + k - count
        };
    }
    if k <= start {
        start - k
    } else {
        start + count - k
    }
}

/// The even way round a cycle of `count` nodes from the one place to the other.
pub fn round_from(count: usize, first: usize, last: usize) -> Round
    requires odd { count % 2 ≡ 1 }
    requires first { first < count }
    requires last { last < count }
    requires small { count < 2 ^ 63 }
    ensures end { result.end ≡ last }
    ensures steps { result.steps < count }
    ensures even { result.steps % 2 ≡ 0 }
    ensures from { place_after count result.onward last result.steps ≡ first }
{
    let ahead = if last <= first {
        first - last
    } else {
        first + count - last
    };
    if ahead % 2 == 0 {
        return Round {
            onward: true,
            end: last,
            steps: ahead,
        };
    }
    Round {
        onward: false,
        end: last,
        steps: count - ahead,
    }
}

/// The step of the way after which k steps are left.
pub fn crossing_before(cycle: &[CycleStep], round: Round, k: usize) -> Crossing
    requires end { round.end < length cycle.now }
    requires steps { k + 1 < length cycle.now }
    ensures from { result.from ≡ node_after cycle.now round.onward round.end (k + 1) }
    ensures link { result.link ≡ link_after cycle.now round.onward round.end k }
    ensures to { result.to ≡ node_after cycle.now round.onward round.end k }
{
    let from = cycle[place_after(cycle.len(), round.onward, round.end, k + 1)];
    let to = cycle[place_after(cycle.len(), round.onward, round.end, k)];
    let link = if round.onward { to.link } else { from.link };
    Crossing {
        from: from.node,
        link,
        to: to.node,
    }
}

/// The node from which the way begins.
pub fn first_of(cycle: &[CycleStep], round: Round) -> NodeId
    requires end { round.end < length cycle.now }
    requires steps { round.steps < length cycle.now }
    ensures { result ≡ node_after cycle.now round.onward round.end round.steps }
{
    cycle[place_after(cycle.len(), round.onward, round.end, round.steps)].node
}
