ghost use Rattle.std.specs.Prelude.{◌≡◌, ◌<◌, ◌≤◌, [], ◌∷◌, ◌++◌, length, option_to_list, All, IfNone, IfSome, IfOk};
ghost use Rattle.std.specs.List.Sorted.{IsPermutation};

use fb_graph::NoMemory;
use std::alloc::Global;
use std::cmp::Reverse;
use std::collections::BinaryHeap;
use std::marker::Model;

/// Places of items, of which the least is found at once. Contracts see them as a list, beside the number of places that
/// there is room for.
#[derive(Drop)]
pub struct Ready {
    heap: BinaryHeap<Reverse<usize>>,
    room: usize,
}

impl Model for Ready {
    ghost use Rattle.std.specs.Prelude.{◌≤◌, ℕ, List, map};
    ghost use Rattle.std.specs.BinaryHeap.{heap_items, heap_capacity, IsHeap};
    ghost use Rattle.std.specs.Ordering.{nat_cmp};

    ghost Value = { List ℕ × ℕ };

    ghost view = { λ r. (map (λ x. x.0) (heap_items r.heap), r.room) };

    ghost invariant = { λ r. (r.room ≤ heap_capacity r.heap) × IsHeap (λ x y. nat_cmp y.0 x.0) (heap_items r.heap) };
}

impl Ready {
    /// No places, and room for `room` of them.
    pub fn new(alloc: Global, room: usize) -> Result<Ready, NoMemory>
        ensures { IfOk result (λ r. r ≡ ([], room)) }
    {
        let heap = BinaryHeap::with_capacity(alloc, room)?;
        Ok(Ready { heap, room })
    }

    /// One place more.
    #[tactic(auto, using(crate::proofs::Heaps::heaps))]
    pub fn push(&mut self, place: usize)
        requires { length self.old.0 < self.old.1 }
        ensures places { IsPermutation (place ∷ self.old.0) self.new.0 }
        ensures room { self.new.1 ≡ self.old.1 }
    {
        let Ok(()) = self.heap.push(Reverse(place)) else {
            unreachable!()
        };
    }

    /// One place more, if there is one.
    pub fn push_some(&mut self, place: Option<usize>)
        requires { length self.old.0 < self.old.1 }
        ensures places { IsPermutation (option_to_list place ++ self.old.0) self.new.0 }
        ensures room { self.new.1 ≡ self.old.1 }
    {
        if let Some(place) = place {
            self.push(place);
        }
    }

    /// Takes the least place out.
    #[tactic(auto, using(crate::proofs::Heaps::heaps))]
    pub fn pop(&mut self) -> Option<usize>
        ensures none { IfNone result (self.old.0 ≡ []) }
        ensures kept { IfNone result (self.new ≡ self.old) }
        ensures some { IfSome result (λ k. IsPermutation self.old.0 (k ∷ self.new.0)) }
        ensures least { IfSome result (λ k. All (λ j. k ≤ j) self.old.0) }
        ensures room { self.new.1 ≡ self.old.1 }
    {
        let Some(Reverse(place)) = self.heap.pop() else {
            return None;
        };
        Some(place)
    }
}
