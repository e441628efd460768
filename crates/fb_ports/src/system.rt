ghost use Rattle.std.specs.Prelude.{◌≡◌, ℕ};

use crate::{Failed, Files, Sink};
use std::io::{Read, Write};
use std::marker::Model;
use std::{fs, rt};

/// What is open: nothing, a file, or standard input.
#[derive(Drop)]
enum Current<F, S> {
    Nothing,
    File(F),
    Input(S),
}

/// The files of the system, by name. The name `-` is standard input. It reports neither bytes nor
/// names, and contracts see it as its count of faults.
#[derive(Drop)]
pub struct OsFiles<'a, R: rt::Files + Input> {
    rt: &'a R,
    current: Current<R::File, R::Reader>,
    faults: u64,
}

impl<'a, R: rt::Files + Input> Model for OsFiles<'a, R> {
    ghost use Rattle.std.specs.Prelude.{ℕ};

    ghost Value = { ℕ };

    ghost view = { λ f. f.faults };
}

impl<'a, R: rt::Files + Input> OsFiles<'a, R> {
    /// No file is open yet, and no fault has occurred.
    pub fn new(rt: &'a R) -> Self
        ensures { result ≡ 0 }
    {
        OsFiles {
            rt,
            current: Current::Nothing,
            faults: 0,
        }
    }
}

impl<R: rt::Files + Input> Files for OsFiles<'_, R> {
    ghost use Rattle.std.specs.Prelude.{None};

    ghost named = { λ _. None };

    ghost left = { λ _. None };

    ghost asked = { λ _. None };

    ghost faults = { λ n. n };

    fn open_file(&mut self, name: String) -> Result<(), Failed> {
        // What was open is closed first, so that its descriptor is free again.
        self.current = Current::Nothing;
        if name.as_str() == "-" {
            self.current = Current::Input(self.rt.reader());
            return Ok(());
        }
        let Ok(file) = fs::open(self.rt, name.as_str()) else {
            self.faults = self.faults.saturating_add(1);
            return Err(Failed);
        };
        self.current = Current::File(file);
        Ok(())
    }

    fn read(&mut self, buf: &mut [u8]) -> Result<usize, Failed> {
        let outcome = match &mut self.current {
            Current::Nothing => return Ok(0),
            Current::File(file) => file.read(buf),
            Current::Input(input) => input.read(buf),
        };
        let Ok(count) = outcome else {
            self.faults = self.faults.saturating_add(1);
            return Err(Failed);
        };
        Ok(count)
    }
}

/// A stream of the system that takes bytes, as standard output and standard error do. It doesn't
/// report them, and contracts see it as its count of faults.
#[derive(Drop)]
pub struct OsSink<W: Write + Drop> {
    inner: W,
    faults: u64,
}

impl<W: Write + Drop> Model for OsSink<W> {
    ghost use Rattle.std.specs.Prelude.{ℕ};

    ghost Value = { ℕ };

    ghost view = { λ s. s.faults };
}

impl<W: Write + Drop> OsSink<W> {
    /// Puts go to `inner`, and no fault has occurred yet.
    pub fn new(inner: W) -> Self
        ensures { result ≡ 0 }
    {
        OsSink { inner, faults: 0 }
    }
}

impl<W: Write + Drop> Sink for OsSink<W> {
    ghost use Rattle.std.specs.Prelude.{None};

    ghost taken = { λ _. None };

    ghost faults = { λ n. n };

    fn put(&mut self, piece: &[u8]) -> Result<usize, Failed> {
        if piece.is_empty() {
            return Ok(0);
        }
        match self.inner.write(piece) {
            Ok(count) if 0 < count => Ok(count),
            _ => {
                self.faults = self.faults.saturating_add(1);
                Err(Failed)
            }
        }
    }
}
