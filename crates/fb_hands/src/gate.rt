//! What a worker passes before each post.

ghost use Rattle.std.specs.Prelude.{ℕ, ⊤};

/// What a worker passes between solving an item and posting it. It returns.
pub trait Gate: Sync {
    /// That this worker has come with the item of this slot and node. Whoever doesn't know which gate it is has it only
    /// from a call of `before_post`.
    ghost passed: { Self → ℕ → ℕ → ℕ → Type 0 } = { λ _ _ _ _. ⊤ };

    /// Is called once the worker has solved the item, before it posts it. The slot is the place of the item's shot among
    /// those that were given: for a window, odd ones counted.
    fn before_post(&self, worker: u32, slot: u32, node: u32)
        ensures { passed self.now worker slot node };
}

/// A gate that lets each worker through at once.
#[derive(Clone, Copy)]
pub struct OpenGate;

impl Gate for OpenGate {
    fn before_post(&self, _worker: u32, _slot: u32, _node: u32) {}
}
