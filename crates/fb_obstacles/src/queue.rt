//! A queue of the growths at which edges may become tight, or minus nodes empty.

ghost use Rattle.std.specs.Prelude.{ℕ, ◌≡◌, ◌+◌, ◌-◌, ◌<◌, ◌≤◌, ◌==◌, ◌^◌, ◌&&◌, ◌||◌, true, false, [], ◌∷◌, length, get_or, All, IfNone, IfSome, OnErr, OnOk, MatchOption, Some};
ghost use Rattle.std.specs.BinaryHeap.{heap_capacity, heap_items, heap_len};
ghost use Rattle.std.specs.List.Sorted.{IsPermutation};
ghost use Rattle.fb_obstacles.specs.InternalHeap.{IsDueHeap, due_times};
ghost use Rattle.fb_obstacles.specs.InternalQueue.{IsFirst, KeepsOthers, is_due, no_due};

use fb_graph::NoMemory;
use std::alloc::Global;
use std::cmp::Reverse;
use std::collections::BinaryHeap;
use std::marker::Model;

/// The growth at which an edge may become tight, or a minus node empty, at the earliest.
#[derive(Clone, Copy, PartialEq, Eq, PartialOrd, Ord)]
pub struct Due {
    /// The growth.
    pub growth: u64,
    /// How many came before. Of two with the same growth the first that came is first.
    pub came: u64,
    /// The edge's number, or the node's name.
    pub number: u64,
}

/// Due times, of which the least is found at once. Contracts see them as a list.
#[derive(Drop)]
pub struct DueTimes {
    heap: BinaryHeap<Reverse<Due>>,
    came: u64,
}

impl Model for DueTimes {
    ghost use Rattle.std.specs.Prelude.{List, map};
    ghost use Rattle.std.specs.BinaryHeap.{heap_capacity, heap_items, heap_len};
    ghost use Rattle.fb_obstacles.specs.declared.queue.Due.{Due};
    ghost use Rattle.fb_obstacles.specs.InternalHeap.{IsDueHeap};

    ghost Value = { List Due };

    ghost view = { λ q. map (λ x. x.0) (heap_items q.heap) };

    ghost invariant = { λ q. IsDueHeap (heap_items q.heap) (heap_len q.heap) (heap_capacity q.heap) };
}

impl DueTimes {
    /// No due times, and no room.
    pub fn new(alloc: Global) -> DueTimes
        ensures { result ≡ [] }
    {
        DueTimes {
            heap: BinaryHeap::new(alloc),
            came: 0,
        }
    }

    /// How many there are.
    pub fn len(&self) -> usize
        ensures { result ≡ length self.now }
    {
        self.heap.len()
    }

    /// Takes room for some more.
    pub fn make_room(&mut self, more: usize) -> Result<(), NoMemory>
        ensures { self.new ≡ self.old }
    {
        self.heap.reserve(more)
    }

    /// Adds a due time if there is room, and returns whether there was.
    pub fn push(&mut self, growth: u64, number: u64) -> bool
        ensures added { result ≡ true → is_due self.new growth number ≡ true }
        ensures kept { (v k : ℕ) → is_due self.old v k ≡ true → is_due self.new v k ≡ true }
    {
        if self.heap.len() == self.heap.capacity() {
            return false;
        }
        let due = Due {
            growth,
            came: self.came,
            number,
        };
        self.came = self.came.wrapping_add(1);
        put(&mut self.heap, due);
        true
    }

    /// Adds a due time. Of those with the same growth it comes last.
    pub fn add(&mut self, growth: u64, number: u64) -> Result<(), NoMemory>
        ensures added { OnOk result (is_due self.new growth number ≡ true) }
        ensures kept { OnOk result ((v k : ℕ) → is_due self.old v k ≡ true → is_due self.new v k ≡ true) }
        ensures err { OnErr result (self.new ≡ self.old) }
    {
        self.heap.reserve(1)?;
        let due = Due {
            growth,
            came: self.came,
            number,
        };
        self.came = self.came.wrapping_add(1);
        put(&mut self.heap, due);
        Ok(())
    }

    /// The first.
    pub fn first(&self) -> Option<Due>
        ensures none { IfNone result (self.now ≡ []) }
        ensures first { IfSome result (IsFirst self.now) }
        ensures least { IfSome result (λ due. (v k : ℕ) → is_due self.now v k ≡ true → due.growth ≤ v) }
    {
        let Reverse(due) = self.heap.peek()?;
        Some(Due {
            growth: due.growth,
            came: due.came,
            number: due.number,
        })
    }

    /// Takes the first out.
    pub fn drop_first(&mut self)
        ensures kept { (first : Due) → IsFirst self.old first → KeepsOthers first.number self.old self.new }
        ensures fewer { length self.new ≡ length self.old - 1 }
    {
        let Some(Reverse(_first)) = self.heap.pop() else {
            return;
        };
    }

    /// Gives the first another growth. Of those with that growth it comes last.
    pub fn postpone_first(&mut self, growth: u64)
        ensures kept { (first : Due) → IsFirst self.old first → KeepsOthers first.number self.old self.new }
        ensures added { (first : Due) → IsFirst self.old first → is_due self.new growth first.number ≡ true }
    {
        let Some(Reverse(first)) = self.heap.pop() else {
            return;
        };
        let due = Due {
            growth,
            came: self.came,
            number: first.number,
        };
        self.came = self.came.wrapping_add(1);
        put(&mut self.heap, due);
    }

    /// The number at a place, in no particular order.
    pub fn number_at(&self, place: usize) -> u64
        requires { place < length self.now }
        ensures { result ≡ (get_or self.now place no_due).number }
    {
        let Reverse(due) = &self.heap.as_slice()[place];
        due.number
    }

    /// Takes the first out, if its growth is below the limit, or if there is no limit.
    pub fn pop_before(&mut self, limit: Option<u64>) -> Option<Due>
        ensures none { IfNone result ((v k : ℕ) → is_due self.old v k ≡ true → MatchOption limit ⊥ (λ most. most ≤ v)) }
        ensures unchanged { IfNone result (self.new ≡ self.old) }
        ensures before { IfSome result (λ due. (most : ℕ) → limit ≡ Some most → due.growth < most) }
        ensures taken { IfSome result (λ due. (v k : ℕ)
            → is_due self.old v k ≡ (((due.growth == v) && (due.number == k)) || is_due self.new v k)) }
        ensures fewer { IfSome result (λ due. length self.new + 1 ≡ length self.old) }
    {
        if let Some(most) = limit {
            if most <= self.first()?.growth {
                return None;
            }
        }
        let Reverse(due) = self.heap.pop()?;
        Some(due)
    }

    /// Does nothing. Its clause says what all growths keep.
    pub fn keeps(&self)
        ensures { All (λ due. due.growth < 2 ^ 64) self.now }
    {
        let _len = self.heap.len();
    }

    /// Takes all out, and keeps the room.
    pub fn clear(&mut self)
        ensures { self.new ≡ [] }
    {
        self.heap.clear();
    }
}

/// Adds a due time to a heap with room for it.
fn put(heap: &mut BinaryHeap<Reverse<Due>>, due: Due)
    requires room { heap_len heap.old < heap_capacity heap.old }
    requires small { due.growth < 2 ^ 64 }
    ensures items { IsPermutation (due ∷ due_times (heap_items heap.old)) (due_times (heap_items heap.new)) }
    ensures heap { IsDueHeap (heap_items heap.old) (heap_len heap.old) (heap_capacity heap.old)
        → IsDueHeap (heap_items heap.new) (heap_len heap.new) (heap_capacity heap.new) }
{
    let Ok(()) = heap.push(Reverse(due)) else {
        unreachable!();
    };
}
