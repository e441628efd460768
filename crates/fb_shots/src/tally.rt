//! The count of a stream's shots.

ghost use Rattle.std.specs.Prelude.{◌≡◌};
ghost use Rattle.fb_shots.specs.InternalTallies.{refusal_of, step_after, step_after_read, step_of_shot, stopped_by, tally_after, tally_after_read, tally_of_shot};

use crate::answer::{Kind, ShotFault, Step};
use crate::stream::Read;
use fb_graph::Shot;
use fb_records::Next;

/// How many shots were given, how many may be, and what was refused.
#[derive(Drop)]
pub struct Tally {
    pub given: u32,
    pub limit: u32,
    /// What was refused. Nothing is given any more.
    pub stopped: Option<Kind>,
}

impl Tally {
    /// The step that a reader's result is, unless it decides nothing.
    pub fn step_after(&mut self, answer: Next<Shot, Kind>) -> Option<Step>
        ensures step { result ≡ step_after self.old answer }
        ensures counts { self.new ≡ tally_after self.old answer }
    {
        match answer {
            Next::Shot(shot) => Some(self.step_of_shot(shot)),
            Next::End => Some(Step::End),
            Next::Refused(kind) => Some(self.refuse(kind)),
            Next::NotYet => None,
        }
    }

    /// The step that a read is, unless more bytes may decide one.
    pub fn step_after_read(&mut self, read: Read) -> Option<Step>
        ensures step { result ≡ step_after_read self.old read }
        ensures counts { self.new ≡ tally_after_read self.old read }
    {
        match read {
            Read::Piece => None,
            Read::End => None,
            Read::Fault => Some(Step::ReadFault),
            Read::TooLong => Some(self.refuse(Kind::InputTooLong)),
        }
    }

    /// Gives the shot, if one more may be given.
    fn step_of_shot(&mut self, shot: Shot) -> Step
        ensures step { result ≡ step_of_shot self.old shot }
        ensures counts { self.new ≡ tally_of_shot self.old }
    {
        if self.given >= self.limit {
            return self.refuse(Kind::TooManyShots);
        }
        self.given += 1;
        Step::Shot(shot)
    }

    /// Refuses the next record and all that follow.
    fn refuse(&mut self, kind: Kind) -> Step
        ensures step { result ≡ refusal_of self.old kind }
        ensures stops { self.new ≡ stopped_by self.old kind }
    {
        self.stopped = Some(kind);
        self.refusal(kind)
    }

    /// The refusal in place of the next shot.
    pub fn refusal(&self, kind: Kind) -> Step
        ensures { result ≡ refusal_of self.now kind }
    {
        Step::Refused(ShotFault {
            shot: self.given,
            kind,
        })
    }
}
