//! The bytes fed to a reader that no result has used.

ghost use Rattle.std.specs.Prelude.{◌≡◌, ℕ, ◌≤◌, List, [], ◌++◌, length, drop, OnOk, OnErr};

use crate::answer::NoMemory;
use std::alloc::Global;
use std::marker::Model;

/// Bytes that are put in at the end and taken off the start. Contracts see those not yet taken off.
#[derive(Drop)]
pub struct Pending {
    bytes: Vec<u8>,
    used: usize,
}

impl Model for Pending {
    ghost use Rattle.std.specs.Prelude.{ℕ, ◌≤◌, List, drop, vec_len};

    ghost Value = { List ℕ };

    ghost view = { λ p. drop p.used p.bytes.items };

    ghost invariant = { λ p. p.used ≤ vec_len p.bytes };
}

impl Pending {
    /// No bytes yet.
    pub fn new(alloc: Global) -> Self
        ensures { result ≡ [] }
    {
        Pending {
            bytes: Vec::new(alloc),
            used: 0,
        }
    }

    /// The bytes that were not taken off.
    pub fn as_slice(&self) -> &[u8]
        ensures { result.now ≡ self.now }
    {
        &self.bytes.as_slice()[self.used..]
    }

    /// Puts bytes in at the end. What was taken off is overwritten once it is half of all that is held, so each
    /// byte is moved at most once on the whole.
    pub fn put(&mut self, piece: &[u8]) -> Result<(), NoMemory>
        ensures ok { OnOk result (self.new ≡ self.old ++ piece.now) }
        ensures err { OnErr result (self.new ≡ self.old) }
    {
        if self.used >= self.bytes.len() - self.used {
            remove_prefix(&mut self.bytes, self.used);
            self.used = 0;
        }
        self.bytes.extend_from_slice(piece)?;
        Ok(())
    }

    /// Takes `count` bytes off the start.
    pub fn take_off(&mut self, count: usize)
        requires { count ≤ length self.old }
        ensures { self.new ≡ drop count self.old }
    {
        self.used += count;
    }
}

/// Removes the first `count` bytes.
fn remove_prefix(bytes: &mut Vec<u8>, count: usize)
    requires { count ≤ length bytes.old.items }
    ensures { bytes.new.items ≡ drop count bytes.old.items }
{
    let kept = bytes.len() - count;
    bytes.copy_within(count.., 0);
    bytes.truncate(kept);
}
