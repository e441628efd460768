//! Numbers that are replaced by others, looked up by the old ones.

ghost use Rattle.std.specs.Prelude.{◌≡◌, ◌<◌, ◌≤◌, ℕ, IfOk, option_map};
ghost use Rattle.std.specs.List.Sorted.{IsPartitionPoint};
ghost use Rattle.fb_links.specs.Names.{name_by};

use crate::NoMemory;
use std::alloc::Global;
use std::marker::Model;

/// New numbers by the old ones. A number that is not listed stays as it is.
/// Contracts see the pairs of an old and a new number, and look a number up by `name_by`.
#[derive(Drop)]
pub struct Names {
    /// In the order of their old numbers, so that a number is found by bisection.
    pairs: Vec<(u64, u64)>,
}

impl Model for Names {
    ghost use Rattle.std.specs.Prelude.{ℕ, List};
    ghost use Rattle.std.specs.List.Sorted.{IsNonDecreasingBy};

    ghost Value = { List (ℕ × ℕ) };

    ghost view = { λ n. n.pairs.items };

    ghost invariant = { λ n. IsNonDecreasingBy (λ (p : ℕ × ℕ). p.0) n.pairs.items };
}

/// The second number of each pair by its first one; if several pairs have the same first number, by the first of
/// them. Pairs that rise are copied in one pass, and no pairs take no memory.
pub fn names_of(alloc: Global, pairs: &[(u64, u64)]) -> Result<Names, NoMemory>
    ensures { IfOk result (λ names. (a : ℕ) → name_by names a ≡ name_by pairs.now a) }
{
    let mut pairs = pairs.to_vec(alloc)?;
    pairs.sort_by_key(|pair| pair.0)?;
    Ok(Names { pairs })
}

impl Names {
    /// The new number.
    pub fn of(&self, old: u64) -> u64
        ensures { result ≡ name_by self.now old }
    {
        match self.pairs.get(self.place_of(old)) {
            Some(pair) if pair.0 == old => pair.1,
            _ => old,
        }
    }

    /// The new number, if there is a number.
    pub fn of_option(&self, old: Option<u64>) -> Option<u64>
        ensures { result ≡ option_map (name_by self.now) old }
    {
        old.map(|number| self.of(number))
    }

    /// The number of pairs that have a smaller old number: the place of the first pair that has this one, if any has it.
    fn place_of(&self, old: u64) -> usize
        ensures { IsPartitionPoint (λ (p : ℕ × ℕ). p.0 < old) (λ (p : ℕ × ℕ). old ≤ p.0) self.now result }
    {
        self.pairs.partition_point(|pair| pair.0 < old)
    }
}
