//! A record as far as its parts have come, by the detectors that they name.

ghost use Rattle.std.specs.Prelude.{◌≡◌, ◌≢◌, ℕ, ◌<◌, [], nat_eq, false, length, slice_index_or, option_map, IfErr, IfSome, OnOk, OnErr, Ok, Err, Some, None, All};
ghost use Rattle.std.specs.List.{list_any};
ghost use Rattle.std.specs.Option.{is_some};
ghost use Rattle.fb_records.specs.Steps.{IfRefused};
ghost use Rattle.fb_shots_stim.specs.Shots.{IsShotOf};
ghost use Rattle.fb_shots_stim.specs.NamedDetectors.{with_detector, rising};
ghost use Rattle.fb_shots_stim.specs.TextHits.{named_of};
ghost use Rattle.fb_shots_stim.specs.InternalParts.{IsMarked};

use crate::answer::Kind;
use fb_records::{NoMemory, Numbers, Stop};
use std::alloc::Global;
use std::marker::Model;
use std::mem;

/// A record as far as its parts have come. Contracts see the detectors that it names, if it is begun.
#[derive(Drop)]
pub struct SoFar {
    alloc: Global,
    detectors: u32,
    begun: bool,
    /// Whether a detector is named, for each of them, once one is.
    marks: Vec<bool>,
    named: Vec<u32>,
}

impl Model for SoFar {
    ghost use Rattle.std.specs.Prelude.{◌≡◌, [], false, Some, None, if◌then◌else◌};
    ghost use Rattle.fb_shots_stim.specs.InternalParts.{RecordSoFar, IsMarked};

    ghost Value = { RecordSoFar };

    ghost view = { λ r. record { detectors = r.detectors; named = if r.begun then Some r.named.items else None } };

    ghost invariant = { λ r. IsMarked r.detectors r.marks.items r.named.items × (r.begun ≡ false → r.named.items ≡ []) };
}

impl SoFar {
    /// No record is begun.
    pub fn new(alloc: Global, detectors: u32) -> Self
        ensures { result ≡ record { detectors = detectors; named = None } }
    {
        SoFar {
            alloc,
            detectors,
            begun: false,
            marks: Vec::new(alloc),
            named: Vec::new(alloc),
        }
    }

    /// The number of detectors.
    pub fn detectors(&self) -> u32
        ensures { result ≡ self.now.detectors }
    {
        self.detectors
    }

    /// Whether a record is begun.
    pub fn is_begun(&self) -> bool
        ensures { result ≡ is_some self.now.named }
    {
        self.begun
    }

    /// Begins a record, which names no detector yet.
    pub fn begin(&mut self)
        requires { self.old.named ≡ None }
        ensures { self.new ≡ record self.old { named = Some [] } }
    {
        self.begun = true;
    }

    /// Names one more detector, in a record that begins here if none is begun.
    pub fn name(&mut self, index: u32) -> Result<(), Stop<Kind>>
        ensures ok { OnOk result
            (with_detector self.old.detectors (named_of self.old.named) index ≡ Ok self.new.named) }
        ensures same { self.new.detectors ≡ self.old.detectors }
        ensures refused { IfErr result (IfRefused (λ kind.
            with_detector self.old.detectors (named_of self.old.named) index ≡ Err kind)) }
        ensures err { OnErr result (self.new ≡ self.old) }
    {
        name(
            self.alloc,
            self.detectors,
            &mut self.marks,
            &mut self.named,
            index,
        )?;
        self.begun = true;
        Ok(())
    }

    /// Ends the record: the detectors that it names, if one is begun.
    pub fn take(&mut self) -> Option<Numbers>
        ensures taken { result ≡ option_map (rising self.old.detectors) self.old.named }
        ensures shot { IfSome result (IsShotOf self.old.detectors) }
        ensures left { self.new ≡ record self.old { named = None } }
    {
        if !self.begun {
            return None;
        }
        self.begun = false;
        clear_marks(self.marks.as_mut_slice(), self.named.as_slice());
        let mut named = mem::replace(&mut self.named, Vec::new(self.alloc));
        named.sort_unstable();
        Some(Numbers::from_vec(named))
    }
}

/// Names one more detector.
fn name(
    alloc: Global,
    detectors: u32,
    marks: &mut Vec<bool>,
    named: &mut Vec<u32>,
    index: u32,
) -> Result<(), Stop<Kind>>
    requires { IsMarked detectors marks.old.items named.old.items }
    ensures ok { OnOk result (with_detector detectors named.old.items index ≡ Ok (Some named.new.items)) }
    ensures refused { IfErr result (IfRefused (λ kind. with_detector detectors named.old.items index ≡ Err kind)) }
    ensures err { OnErr result (named.new.items ≡ named.old.items) }
    ensures marked { IsMarked detectors marks.new.items named.new.items }
{
    if index >= detectors {
        return Err(Stop::Refused(Kind::IndexOutOfRange));
    }
    make_marks(alloc, detectors, marks)?;
    if marks[index as usize] {
        return Err(Stop::Refused(Kind::RepeatedIndex));
    }
    named.push(index)?;
    marks[index as usize] = true;
    Ok(())
}

/// Makes the marks, none set, unless they are made.
fn make_marks(alloc: Global, detectors: u32, marks: &mut Vec<bool>) -> Result<(), NoMemory>
    ensures size { OnOk result (length marks.new.items ≡ detectors) }
    ensures kept { length marks.old.items ≡ detectors → marks.new.items ≡ marks.old.items }
    ensures none { OnOk result (length marks.old.items ≢ detectors → (k : ℕ) → slice_index_or marks.new.items k false ≡ false) }
    ensures err { OnErr result (marks.new.items ≡ marks.old.items) }
{
    if marks.len() == detectors as usize {
        return Ok(());
    }
    *marks = vec![in alloc; false; detectors as usize]?;
    Ok(())
}

/// Takes back the marks of the detectors that are named.
fn clear_marks(marks: &mut [bool], named: &[u32])
    requires size { All (λ k. k < length marks.old) named.now }
    requires marked { (k : ℕ) → k < length marks.old → slice_index_or marks.old k false ≡ list_any (nat_eq k) named.now }
    ensures { (k : ℕ) → k < length marks.new → slice_index_or marks.new k false ≡ false }
{
    for k in named {
        marks[*k as usize] = false;
    }
}
