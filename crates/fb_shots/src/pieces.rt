//! Pieces of a file, on their way to a reader.

ghost use Rattle.std.specs.Prelude.{◌≡◌, ◌<◌, ◌≤◌, ◌==◌, [], length, IfOk, OnErr, MatchResult};
ghost use Rattle.std.specs.Io.KnownBytes.{Consumes, IsAtEnd, Keeps};
ghost use Rattle.fb_ports.specs.Causes.{HasCause};

use crate::answer::NoMemory;
use fb_ports::{Failed, Files, MOST_ASKED, read_at_most};
use std::alloc::Global;
use std::marker::Model;

/// A piece of a file that was read and is still to be fed to a reader, and the room for it. Contracts see its bytes.
#[derive(Drop)]
pub struct Piece {
    room: Vec<u8>,
    unfed: usize,
}

impl Model for Piece {
    ghost use Rattle.std.specs.Prelude.{◌≡◌, ◌≤◌, List, ℕ, take, vec_len};
    ghost use Rattle.fb_ports.specs.declared.reading.TheConstants.{MOST_ASKED};

    ghost Value = { List ℕ };

    ghost view = { λ p. take p.unfed p.room.items };

    ghost invariant = { λ p. (vec_len p.room ≡ MOST_ASKED) × (p.unfed ≤ MOST_ASKED) };
}

impl Piece {
    /// No bytes yet. The room is taken here.
    pub fn new(alloc: Global) -> Result<Piece, NoMemory>
        ensures { IfOk result (λ p. p ≡ []) }
    {
        let room = vec![in alloc; 0u8; MOST_ASKED]?;
        Ok(Piece { room, unfed: 0 })
    }

    pub fn as_slice(&self) -> &[u8]
        ensures { result.now ≡ self.now }
    {
        &self.room[..self.unfed]
    }

    pub fn is_empty(&self) -> bool
        ensures { result ≡ (length self.now == 0) }
    {
        self.unfed == 0
    }

    /// Lets the bytes go.
    pub fn clear(&mut self)
        ensures { self.new ≡ [] }
    {
        self.unfed = 0;
    }

    /// Reads a piece of the current file, of at most `most` bytes, and returns how many they are: none at its end.
    pub fn read<F: Files>(&mut self, files: &mut F, most: usize) -> Result<usize, Failed>
        requires empty { self.old ≡ [] }
        requires some { 0 < most }
        ensures count { IfOk result (λ n. (length self.new ≡ n) × (n ≤ most)) }
        ensures bytes { MatchResult result
            (λ n. Consumes (F.left files.old) (F.left files.new) self.new × (n ≡ 0 → IsAtEnd (F.left files.new)))
            (λ _. Keeps (F.left files.old) (F.left files.new)) }
        ensures failed { OnErr result (self.new ≡ []) }
        ensures asks { F.asked files.new ≡ F.asked files.old }
        ensures names { F.named files.new ≡ F.named files.old }
        ensures cause { HasCause (F.faults files.old) (F.faults files.new) result }
    {
        self.unfed = 0;
        let count = read_at_most(files, &mut self.room, most)?;
        self.unfed = count;
        Ok(count)
    }
}
