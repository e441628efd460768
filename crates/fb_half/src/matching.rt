ghost use Rattle.std.specs.Prelude.{◌≡◌, ◌↔◌, ◌<◌, ◌≤◌, ◌==◌, ℕ, true, false, if◌then◌else◌, [], ◌∷◌, ◌++◌, length, vec_capacity, All, OnOk, OnErr};
ghost use Rattle.std.specs.List.Sorted.{IsPermutation};
ghost use Rattle.fb_graph.specs.Parity.{is_in};
ghost use Rattle.fb_half.specs.InternalStandings.{has_name, standing_of};
ghost use Rattle.fb_half.specs.declared.matches.Standing.TheVariants.{Matched};
ghost use Rattle.fb_half.specs.Matchings.{listed_names, match_links, matched_names, names_of};
ghost use Rattle.fb_half.specs.Standings.{is_matched, is_unmatched};

use crate::matches::{Match, Standing};
use fb_graph::NoMemory;
use fb_links::{LinkId, NodeId};
use std::alloc::Global;
use std::marker::Model;

/// Which outer nodes of a part are matched, by which links, and which are not. A node is found by its name without a
/// search. Contracts see the matches and the unmatched names, each as a list whose order is free.
#[derive(Drop)]
pub struct Matching {
    matches: Vec<Match>,
    /// The links of the matches, in the same order.
    links: Vec<LinkId>,
    unmatched: Vec<NodeId>,
    /// Where each name is listed.
    standings: Vec<Standing>,
}

impl Model for Matching {
    ghost use Rattle.std.specs.Prelude.{◌≡◌, ◌↔◌, map};
    ghost use Rattle.fb_half.specs.Matchings.{MatchingValue, match_links};
    ghost use Rattle.fb_half.specs.InternalStandings.{AreStanding};

    ghost Value = { MatchingValue };

    ghost view = { λ m. record { matches = m.matches.items; unmatched = m.unmatched.items } };

    ghost invariant = { λ m. (m.links.items ≡ match_links m.matches.items)
        × AreStanding m.matches.items m.unmatched.items m.standings.items };
}

impl Matching {
    /// The matching that lists no node.
    pub fn new(alloc: Global) -> Matching
        ensures { result ≡ record { matches = []; unmatched = [] } }
    {
        Matching {
            matches: Vec::new(alloc),
            links: Vec::new(alloc),
            unmatched: Vec::new(alloc),
            standings: Vec::new(alloc),
        }
    }

    /// The matching that lists no node, in the room of this one. Its time is that of the matches, the unmatched nodes and
    /// the largest name that was listed.
    pub fn into_empty(self) -> Matching
        ensures { result ≡ record { matches = []; unmatched = [] } }
    {
        let Matching {
            mut matches,
            mut links,
            mut unmatched,
            mut standings,
        } = self;
        matches.clear();
        links.clear();
        unmatched.clear();
        standings.clear();
        Matching {
            matches,
            links,
            unmatched,
            standings,
        }
    }

    /// The links of the matches.
    pub fn links(&self) -> &[LinkId]
        ensures { result.now ≡ match_links self.now.matches }
    {
        self.links.as_slice()
    }

    /// The matches.
    pub fn matches(&self) -> &[Match]
        ensures { result.now ≡ self.now.matches }
    {
        self.matches.as_slice()
    }

    /// The names of the nodes without a match.
    pub fn unmatched(&self) -> &[NodeId]
        ensures { result.now ≡ self.now.unmatched }
    {
        self.unmatched.as_slice()
    }

    /// Where the matching lists the node. Takes constant time.
    pub fn standing(&self, name: NodeId) -> Standing
        ensures unmatched { is_in self.now.unmatched name ≡ is_unmatched result }
        ensures matched { is_in (matched_names self.now.matches) name ≡ is_matched result }
        ensures place { (i : ℕ) → (result ≡ Matched i)
            ↔ ((i < length self.now.matches) × (has_name self.now.matches i name ≡ true)) }
    {
        standing_in(&self.standings, name)
    }

    /// Lists a further node as unmatched.
    pub fn add_unmatched(&mut self, _alloc: Global, name: NodeId) -> Result<(), NoMemory>
        requires { is_in (listed_names self.old) name ≡ false }
        ensures ok { OnOk result (self.new ≡ record { matches = self.old.matches; unmatched = self.old.unmatched ++ name ∷ [] }) }
        ensures err { OnErr result (self.new ≡ self.old) }
    {
        // The vectors grow by the allocator that they were made with.
        self.unmatched.reserve(1)?;
        widen(&mut self.standings, name)?;
        let place = self.unmatched.len();
        set_name(&mut self.standings, name, Standing::Unmatched(place));
        self.unmatched.push_reserved(name);
        Ok(())
    }

    /// Adds a match of nodes that are not listed yet.
    pub fn add_match(&mut self, _alloc: Global, m: Match) -> Result<(), NoMemory>
        requires { All (λ name. is_in (listed_names self.old) name ≡ false) (names_of m) }
        ensures ok { OnOk result (self.new ≡ record { matches = self.old.matches ++ m ∷ []; unmatched = self.old.unmatched }) }
        ensures err { OnErr result (self.new ≡ self.old) }
    {
        // The vectors grow by the allocator that they were made with.
        make_room(&mut self.matches, &mut self.links, &mut self.standings, m)?;
        let place = self.matches.len();
        set_names(&mut self.standings, m, Standing::Matched(place));
        self.matches.push_reserved(m);
        self.links.push_reserved(m.link);
        Ok(())
    }

    /// Removes a node from the unmatched ones.
    pub fn take_unmatched(&mut self, name: NodeId)
        requires { is_in self.old.unmatched name ≡ true }
        ensures matches { self.new.matches ≡ self.old.matches }
        ensures unmatched { IsPermutation self.old.unmatched (name ∷ self.new.unmatched) }
    {
        let Standing::Unmatched(place) = standing_in(&self.standings, name) else {
            unreachable!()
        };
        self.unmatched.swap_remove(place);
        set_name(&mut self.standings, name, Standing::Absent);
        if place < self.unmatched.len() {
            let moved = self.unmatched[place];
            set_name(&mut self.standings, moved, Standing::Unmatched(place));
        }
    }

    /// Removes the match of a node and returns it. Neither of its nodes is listed any more.
    pub fn take_match(&mut self, name: NodeId) -> Match
        requires { is_in (matched_names self.old.matches) name ≡ true }
        ensures name { is_in (names_of result) name ≡ true }
        ensures matches { IsPermutation self.old.matches (result ∷ self.new.matches) }
        ensures unmatched { self.new.unmatched ≡ self.old.unmatched }
    {
        let Standing::Matched(place) = standing_in(&self.standings, name) else {
            unreachable!()
        };
        let taken = self.matches.swap_remove(place);
        self.links.swap_remove(place);
        set_names(&mut self.standings, taken, Standing::Absent);
        if place < self.matches.len() {
            let moved = self.matches[place];
            set_names(&mut self.standings, moved, Standing::Matched(place));
        }
        taken
    }
}

/// The table's entry of the name.
fn standing_in(standings: &[Standing], name: NodeId) -> Standing
    ensures { result ≡ standing_of standings.now name }
{
    match standings.get(name as usize) {
        Some(standing) => *standing,
        None => Standing::Absent,
    }
}

/// Gives the table an entry for the name, if it has none.
fn widen(standings: &mut Vec<Standing>, name: NodeId) -> Result<(), NoMemory>
    ensures within { OnOk result (name < length standings.new.items) }
    ensures longer { length standings.old.items ≤ length standings.new.items }
    ensures same { (k : ℕ) → standing_of standings.new.items k ≡ standing_of standings.old.items k }
{
    let Some(count) = (name as usize).checked_add(1) else {
        return Err(NoMemory);
    };
    if standings.len() < count {
        standings.resize(count, Standing::Absent)?;
    }
    Ok(())
}

/// Gives the table an entry for each node that the match matches.
fn widen_names(standings: &mut Vec<Standing>, m: Match) -> Result<(), NoMemory>
    ensures within { OnOk result (All (λ name. name < length standings.new.items) (names_of m)) }
    ensures same { (k : ℕ) → standing_of standings.new.items k ≡ standing_of standings.old.items k }
{
    widen(standings, m.first)?;
    match m.second {
        Some(second) => widen(standings, second),
        None => Ok(()),
    }
}

/// Gives the lists and the table room for one match more.
fn make_room(
    matches: &mut Vec<Match>,
    links: &mut Vec<LinkId>,
    standings: &mut Vec<Standing>,
    m: Match,
) -> Result<(), NoMemory>
    ensures matches { matches.new.items ≡ matches.old.items }
    ensures links { links.new.items ≡ links.old.items }
    ensures same { (k : ℕ) → standing_of standings.new.items k ≡ standing_of standings.old.items k }
    ensures matches_room { OnOk result (length matches.new.items < vec_capacity matches.new) }
    ensures links_room { OnOk result (length links.new.items < vec_capacity links.new) }
    ensures within { OnOk result (All (λ name. name < length standings.new.items) (names_of m)) }
{
    matches.reserve(1)?;
    links.reserve(1)?;
    widen_names(standings, m)
}

/// Sets the entry of a name that the table has one for.
fn set_name(standings: &mut Vec<Standing>, name: NodeId, standing: Standing)
    requires { name < length standings.old.items }
    ensures count { length standings.new.items ≡ length standings.old.items }
    ensures entries { (k : ℕ) → standing_of standings.new.items k ≡ (if name == k then standing else standing_of standings.old.items k) }
{
    standings[name as usize] = standing;
}

/// Sets the entries of the nodes that a match matches.
fn set_names(standings: &mut Vec<Standing>, m: Match, standing: Standing)
    requires { All (λ name. name < length standings.old.items) (names_of m) }
    ensures count { length standings.new.items ≡ length standings.old.items }
    ensures entries { (k : ℕ) → standing_of standings.new.items k ≡ (if is_in (names_of m) k then standing else standing_of standings.old.items k) }
{
    set_name(standings, m.first, standing);
    if let Some(second) = m.second {
        set_name(standings, second, standing);
    }
}
