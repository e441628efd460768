ghost use Rattle.std.specs.Prelude.{◌≡◌, [], ◌∷◌, ◌++◌, if◌then◌else◌, OnOk, OnErr};

use crate::faults::NoMemory;
use std::marker::Model;

/// Numbers of vertices or edges, which contracts see as their list.
#[derive(Debug, Drop)]
pub struct NumberList {
    numbers: Vec<u32>,
}

impl Model for NumberList {
    ghost use Rattle.std.specs.Prelude.{List, ℕ};

    ghost Value = { List ℕ };

    ghost view = { λ l. l.numbers.items };
}

impl NumberList {
    /// The list of these numbers.
    pub fn from_vec(numbers: Vec<u32>) -> NumberList
        ensures { result ≡ numbers.items }
    {
        NumberList { numbers }
    }

    /// Its numbers, without a copy.
    pub fn into_vec(self) -> Vec<u32>
        ensures { result.items ≡ self }
    {
        self.numbers
    }

    /// Its numbers.
    pub fn as_slice(&self) -> &[u32]
        ensures { result.now ≡ self.now }
    {
        self.numbers.as_slice()
    }

    /// Adds a number at the end if it is wanted.
    pub fn push_if(&mut self, is_wanted: bool, number: u32) -> Result<(), NoMemory>
        ensures ok { OnOk result (self.new ≡ self.old ++ (if is_wanted then number ∷ [] else [])) }
        ensures err { OnErr result (self.new ≡ self.old) }
    {
        if is_wanted { self.push(number) } else { Ok(()) }
    }

    /// Adds a number at the end.
    pub fn push(&mut self, number: u32) -> Result<(), NoMemory>
        ensures ok { OnOk result (self.new ≡ self.old ++ number ∷ []) }
        ensures err { OnErr result (self.new ≡ self.old) }
    {
        self.numbers.push(number).map_err(|_| NoMemory)
    }
}
