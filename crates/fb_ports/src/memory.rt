ghost use Rattle.std.specs.Prelude.{◌≡◌, ℕ, ◌-◌, ◌^◌, ◌<◌, ◌≤◌, min, ◌||◌, List, [], ◌∷◌, ◌++◌, length, map, take, drop, Option, None, Some, IsNone, IfSome, IfOk, OnOk, OnErr, is_err, is_none, IsOk, nat_eq, nat_le, if◌then◌else◌, string_bytes};
ghost use Rattle.fb_ports.specs.Causes.{HasCause, HasRoom, GainsIfKnown, Opens, ReadsAtMost, ReadConsumes, WritesAtMost, WriteAppends};
ghost use Rattle.std.specs.Str.{bytes_eq};
ghost use Rattle.fb_ports.specs.Memory.{bytes_at, bytes_named, no_files, empty_sink, is_to_fail, one_more};

use crate::{Failed, Files, NoMemory, Sink};
use std::alloc::Global;
use std::marker::Model;

/// A name and the bytes of the file that has it.
#[derive(Drop)]
struct NamedFile {
    name: String,
    bytes: Vec<u8>,
}

impl Model for NamedFile {
    ghost use Rattle.std.specs.Prelude.{ℕ, List, string_bytes};

    ghost Value = { List ℕ × List ℕ };

    ghost view = { λ f. (string_bytes f.name, f.bytes.items) };
}

impl NamedFile {
    fn new(alloc: Global, name: &str, bytes: &[u8]) -> Result<NamedFile, NoMemory>
        ensures { IfOk result (λ f. f ≡ (name.now, bytes.now)) }
    {
        let name = String::from_str(alloc, name)?;
        let mut held = Vec::new(alloc);
        if held.extend_from_slice(bytes).is_err() {
            return Err(NoMemory);
        }
        Ok(NamedFile { name, bytes: held })
    }

    fn has_name(&self, name: &str) -> bool
        ensures { result ≡ bytes_eq self.now.0 name.now }
    {
        self.name.as_str() == name
    }

    fn bytes(&self) -> &[u8]
        ensures { result.now ≡ self.now.1 }
    {
        self.bytes.as_slice()
    }
}

/// The place of the first file of this name.
#[tactic(auto, using(crate::proofs::Lookups::lookups))]
fn place_of(files: &[NamedFile], name: &str) -> Option<usize>
    ensures found { IfSome result (λ i. (i < length files.now)
        × (bytes_named files.now name.now ≡ Some (bytes_at files.now i))) }
    ensures absent { IsNone result → bytes_named files.now name.now ≡ None }
{
    for (i, file) in files.iter().enumerate() {
        if file.has_name(name) {
            return Some(i);
        }
    }
    None
}

/// Counts a call, and returns whether it is one of those that are to fail.
fn count_call(failing: &[u64], calls: &mut u64) -> bool
    ensures counts { calls.new ≡ one_more calls.old }
    ensures planned { result ≡ is_to_fail failing.now calls.old }
{
    *calls = calls.saturating_add(1);
    failing.contains(calls)
}

/// Copies bytes from place `at` on into the start of `buf`, as many as there are, as `buf` holds and
/// as `most` says, and returns how many.
fn copy_from(bytes: &[u8], at: usize, most: usize, buf: &mut [u8]) -> usize
    requires { at ≤ length bytes.now }
    ensures count { result ≡ min most (min (length buf.old) (length bytes.now - at)) }
    ensures copied { take result buf.new ≡ take result (drop at bytes.now) }
{
    let rest = &bytes[at..];
    let count = most.min(buf.len().min(rest.len()));
    buf[..count].copy_from_slice(&rest[..count]);
    count
}

/// Files in memory, for tests: names with their bytes, calls that are to fail, and a greatest piece
/// for reads. Of files of one name the first counts.
#[derive(Drop)]
pub struct MemFiles {
    files: Vec<NamedFile>,
    current: Option<usize>,
    at: usize,
    asked: Vec<String>,
    failing: Vec<u64>,
    calls: u64,
    most: usize,
    faults: u64,
}

impl Model for MemFiles {
    ghost use Rattle.std.specs.Prelude.{◌≤◌, ◌<◌, map, string_bytes, vec_capacity};
    ghost use Rattle.fb_ports.specs.Memory.{FilesInMemory, rest_of, IsPlaceIn};

    ghost Value = { FilesInMemory };

    ghost view = { λ m. record {
      files = m.files.items;
      left = rest_of m.files.items m.current m.at;
      asked = map string_bytes m.asked.items;
      failing = m.failing.items;
      calls = m.calls;
      most = m.most;
      faults = m.faults;
    } };

    ghost invariant = { λ m.
        IsPlaceIn m.files.items m.current m.at
        × (16 ≤ vec_capacity m.asked)
        × (0 < m.most) };
}

impl MemFiles {
    /// No file, no call that is to fail, and no limit on the piece that a read gives. Room for 16
    /// names asked for is taken here.
    pub fn new(alloc: Global) -> Result<MemFiles, NoMemory>
        ensures { IfOk result (λ m. m ≡ no_files (2 ^ 64 - 1)) }
    {
        let asked = Vec::with_capacity(alloc, 16)?;
        Ok(MemFiles {
            files: Vec::new(alloc),
            current: None,
            at: 0,
            asked,
            failing: Vec::new(alloc),
            calls: 0,
            most: usize::MAX,
            faults: 0,
        })
    }

    /// Adds a file.
    pub fn add(&mut self, alloc: Global, name: &str, bytes: &[u8]) -> Result<(), NoMemory>
        ensures added { OnOk result (self.new
            ≡ record self.old { files = self.old.files ++ (name.now, bytes.now) ∷ [] }) }
        ensures kept { OnErr result (self.new ≡ self.old) }
    {
        let file = NamedFile::new(alloc, name, bytes)?;
        if self.files.push(file).is_err() {
            return Err(NoMemory);
        }
        Ok(())
    }

    /// Sets the numbers of the calls that are to fail. Opens and reads are counted together, from 1.
    pub fn fail_at(&mut self, calls: Vec<u64>)
        ensures { self.new ≡ record self.old { failing = calls.items } }
    {
        self.failing = calls;
    }

    /// The names asked for so far, oldest first.
    pub fn asked(&self) -> &[String]
        ensures { map string_bytes result.now ≡ self.now.asked }
    {
        self.asked.as_slice()
    }

    /// Sets the greatest piece, in bytes, that a read gives.
    pub fn give_at_most(&mut self, most: usize)
        requires { 0 < most }
        ensures { self.new ≡ record self.old { most = most } }
    {
        self.most = most;
    }
}

impl Files for MemFiles {
    ghost use Rattle.std.specs.Prelude.{Some};
    ghost use Rattle.fb_ports.specs.Memory.{bytes_named};

    ghost named = { λ m. Some (bytes_named m.files) };

    ghost left = { λ m. Some m.left };

    ghost asked = { λ m. Some m.asked };

    ghost faults = { λ m. m.faults };

    fn open_file(&mut self, name: String) -> Result<(), Failed>
        requires { HasRoom (Some self.old.asked) 16 }
        ensures asks { GainsIfKnown (Some self.old.asked) (Some self.new.asked) (string_bytes name) }
        ensures names { Some (bytes_named self.new.files) ≡ Some (bytes_named self.old.files) }
        ensures opens { Opens (Some (bytes_named self.old.files)) (Some self.new.left)
            (string_bytes name) result }
        ensures cause { HasCause self.old.faults self.new.faults result }

        // It fails exactly at a call that is to fail or a name that no file has.
        ensures fails { is_err result ≡ (is_to_fail self.old.failing self.old.calls
            || is_none (bytes_named self.old.files (string_bytes name))) }
        ensures others { self.new ≡ record self.old {
          left = self.new.left;
          asked = self.new.asked;
          calls = one_more self.old.calls;
          faults = self.new.faults;
        } }
    {
        let planned = count_call(self.failing.as_slice(), &mut self.calls);
        let place = place_of(self.files.as_slice(), name.as_str());
        if self.asked.push(name).is_err() {
            unreachable!()
        }
        self.at = 0;
        self.current = if planned { None } else { place };
        if self.current.is_none() {
            self.faults = self.faults.saturating_add(1);
            return Err(Failed);
        }
        Ok(())
    }

    fn read(&mut self, buf: &mut [u8]) -> Result<usize, Failed>
        ensures asks { Some self.new.asked ≡ Some self.old.asked }
        ensures names { Some (bytes_named self.new.files) ≡ Some (bytes_named self.old.files) }
        ensures bound { ReadsAtMost result buf.new }
        ensures bytes { ReadConsumes (Some self.old.left) (Some self.new.left) result buf.new }
        ensures cause { HasCause self.old.faults self.new.faults result }

        // It fails exactly at a call that is to fail.
        ensures fails { is_err result ≡ is_to_fail self.old.failing self.old.calls }
        ensures piece { IfOk result (λ n. n ≡ min self.old.most (min (length buf.old) (length self.old.left))) }
        ensures others { self.new ≡ record self.old {
          left = self.new.left;
          calls = one_more self.old.calls;
          faults = self.new.faults;
        } }
    {
        if count_call(self.failing.as_slice(), &mut self.calls) {
            self.faults = self.faults.saturating_add(1);
            return Err(Failed);
        }
        let Some(i) = self.current else {
            return Ok(0);
        };
        let count = copy_from(self.files[i].bytes(), self.at, self.most, buf);
        self.at += count;
        Ok(count)
    }
}

/// A sink in memory, for tests: room for a number of bytes, puts that are to fail, and a greatest
/// piece for puts. Once it is full a put of a piece that is not empty is a fault.
#[derive(Drop)]
pub struct MemSink {
    taken: Vec<u8>,
    room: usize,
    failing: Vec<u64>,
    calls: u64,
    most: usize,
    faults: u64,
}

impl Model for MemSink {
    ghost use Rattle.std.specs.Prelude.{◌≤◌, ◌<◌, vec_len, vec_capacity};
    ghost use Rattle.fb_ports.specs.Memory.{SinkInMemory};

    ghost Value = { SinkInMemory };

    ghost view = { λ s. record {
      taken = s.taken.items;
      room = s.room;
      failing = s.failing.items;
      calls = s.calls;
      most = s.most;
      faults = s.faults;
    } };

    ghost invariant = { λ s. (vec_len s.taken ≤ s.room) × (s.room ≤ vec_capacity s.taken) × (0 < s.most) };
}

impl MemSink {
    /// Nothing taken, no put that is to fail, and no limit on the piece that a put takes. Room for
    /// `room` bytes is taken here.
    pub fn new(alloc: Global, room: usize) -> Result<MemSink, NoMemory>
        ensures { IfOk result (λ s. s ≡ empty_sink room (2 ^ 64 - 1)) }
    {
        let taken = Vec::with_capacity(alloc, room)?;
        Ok(MemSink {
            taken,
            room,
            failing: Vec::new(alloc),
            calls: 0,
            most: usize::MAX,
            faults: 0,
        })
    }

    /// Sets the numbers of the puts that are to fail. Puts of pieces that are not empty are counted,
    /// from 1.
    pub fn fail_at(&mut self, calls: Vec<u64>)
        ensures { self.new ≡ record self.old { failing = calls.items } }
    {
        self.failing = calls;
    }

    /// Sets the greatest piece, in bytes, that a put takes.
    pub fn take_at_most(&mut self, most: usize)
        requires { 0 < most }
        ensures { self.new ≡ record self.old { most = most } }
    {
        self.most = most;
    }

    /// The bytes taken so far.
    pub fn taken(&self) -> &[u8]
        ensures { result.now ≡ self.now.taken }
    {
        self.taken.as_slice()
    }
}

impl Sink for MemSink {
    ghost use Rattle.std.specs.Prelude.{Some};

    ghost taken = { λ s. Some s.taken };

    ghost faults = { λ s. s.faults };

    fn put(&mut self, piece: &[u8]) -> Result<usize, Failed>
        ensures bound { WritesAtMost result piece.now }
        ensures some { 0 < length piece.now → IfOk result (λ n. 0 < n) }
        ensures nothing { piece.now ≡ [] → IsOk result }
        ensures bytes { WriteAppends (Some self.old.taken) (Some self.new.taken) result piece.now }
        ensures cause { HasCause self.old.faults self.new.faults result }

        // A put of some bytes fails exactly if it is to fail or the sink is full.
        ensures fails { 0 < length piece.now → is_err result ≡ (is_to_fail self.old.failing self.old.calls
            || nat_le self.old.room (length self.old.taken)) }
        ensures piece { IfOk result (λ n. n ≡ min self.old.most
            (min (length piece.now) (self.old.room - length self.old.taken))) }
        ensures others { self.new ≡ record self.old {
          taken = self.new.taken;
          calls = if nat_eq (length piece.now) 0 then self.old.calls else one_more self.old.calls;
          faults = self.new.faults;
        } }
    {
        if piece.is_empty() {
            return Ok(0);
        }
        let planned = count_call(self.failing.as_slice(), &mut self.calls);
        let free = self.room - self.taken.len();
        if planned || free == 0 {
            self.faults = self.faults.saturating_add(1);
            return Err(Failed);
        }
        let count = self.most.min(piece.len().min(free));
        if self.taken.extend_from_slice(&piece[..count]).is_err() {
            unreachable!()
        }
        Ok(count)
    }
}
