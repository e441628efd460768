//! The shots of a file, some at a time.

ghost use Rattle.std.specs.Prelude.{◌≡◌, ◌<◌, ◌≤◌, Some, IfOk, OnErr};
ghost use Rattle.fb_ports.specs.Causes.{CountsFault};
ghost use Rattle.fb_files.specs.Taking.{TakesWindow};

use fb_graph::{NoMemory, Shot};
use fb_ports::Files;
use fb_shots::{ShotFault, ShotStream, Step};
use std::alloc::Global;

/// The most shots that are taken from a file. A row has its shot's number as a `u32`.
pub const MOST_SHOTS: u32 = u32::MAX;

/// How the shots of a file end.
#[derive(Clone, Copy, Debug, PartialEq, Eq)]
pub enum ShotsEnd {
    /// The file was read to its end.
    End,
    /// The next record of the file is no shot, and refused.
    Refused(ShotFault),
    /// A read of the file failed.
    ReadFault,
}

/// Shots that were taken one after another, and how the shots of the file end, if they do after these.
#[derive(Drop)]
pub struct Taken {
    pub shots: Vec<Shot>,
    pub end: Option<ShotsEnd>,
}

/// Takes up to `most` further shots of a stream, fewer only if the shots end. If a read fails, they are those that the
/// bytes read until then settle.
pub fn take_window<F: Files>(
    alloc: Global,
    files: &mut F,
    stream: &mut ShotStream<'_>,
    most: usize,
) -> Result<Taken, NoMemory>
    ensures takes { IfOk result (λ t. TakesWindow most stream.old stream.new (F.left files.old) (F.left files.new) t.shots.items t.end) }
    ensures asks { F.asked files.new ≡ F.asked files.old }
    ensures names { F.named files.new ≡ F.named files.old }
    ensures faults { IfOk result (λ t. CountsFault (t.end ≡ Some ShotsEnd.ReadFault) (F.faults files.old) (F.faults files.new)) }
    ensures never_falls { F.faults files.old ≤ F.faults files.new }
    ensures unread { OnErr result (F.faults files.new ≡ F.faults files.old) }
{
    let mut shots = Vec::with_capacity(alloc, most)?;
    while shots.len() < most {
        let Ok(step) = stream.next_shot(files) else {
            return Err(NoMemory);
        };
        match step {
            Step::Shot(shot) => shots.push(shot)?,
            Step::End => return Ok(ended(shots, ShotsEnd::End)),
            Step::Refused(fault) => return Ok(ended(shots, ShotsEnd::Refused(fault))),
            Step::ReadFault => return Ok(ended(shots, ShotsEnd::ReadFault)),
        }
    }
    Ok(Taken { shots, end: None })
}

/// The last shots of a file.
fn ended(shots: Vec<Shot>, end: ShotsEnd) -> Taken
    ensures shots { result.shots.items ≡ shots.items }
    ensures end { result.end ≡ Some end }
{
    Taken {
        shots,
        end: Some(end),
    }
}
