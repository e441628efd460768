//! What a reader returns, what a step of it finds, and why it gives nothing.

use std::alloc::AllocFailed;

/// There was not enough memory.
pub use std::alloc::AllocError as NoMemory;

/// The result of asking a reader for its next shot. `S` is a shot as the format gives it, and `K` says why a record is
/// refused.
#[derive(Debug, Drop)]
pub enum Next<S, K> {
    /// A shot.
    Shot(S),
    /// The bytes fed hold no further whole record, and more may be fed.
    NotYet,
    /// The input is finished, and no record is left.
    End,
    /// The next record is refused, and so is each further call.
    Refused(K),
}

/// What a step of a reader finds at the start of some bytes. `S` is a shot as the format gives it.
#[derive(Drop)]
pub enum Found<S> {
    /// A shot, and how many bytes it uses.
    Shot(S, usize),
    /// No whole record, and more bytes may come.
    NotYet,
    /// No record, and no more bytes come.
    End,
}

/// Why a step of a reader gives nothing. `K` says why a record is refused.
#[derive(Drop)]
pub enum Stop<K> {
    /// There was not enough memory.
    NoMemory,
    /// The record is refused.
    Refused(K),
}

impl<K> From<NoMemory> for Stop<K> {
    ghost use Rattle.std.specs.Prelude.{◌≡◌};
    ghost use Rattle.fb_records.specs.declared.answer.Stop.{Stop};

    ghost from_gives = { λ _ stop. stop ≡ Stop.NoMemory };

    fn from(_: NoMemory) -> Stop<K> {
        Stop::NoMemory
    }
}

/// So that a push's error converts too. The value that was to be pushed is dropped.
impl<T: Drop, K> From<AllocFailed<T>> for Stop<K> {
    ghost use Rattle.std.specs.Prelude.{◌≡◌};
    ghost use Rattle.fb_records.specs.declared.answer.Stop.{Stop};

    ghost from_gives = { λ _ stop. stop ≡ Stop.NoMemory };

    fn from(_: AllocFailed<T>) -> Stop<K> {
        Stop::NoMemory
    }
}
