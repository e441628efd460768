//! A worker's place in a crew.

ghost use Rattle.std.specs.Prelude.{◌≡◌, ◌+◌, ◌^◌, ◌≤◌, ◌<◌};

use fb_book::Board;
use std::sync::ledger;
use std::sync::ledger::Share;

/// A worker's number, its tools, and how many events it has made. Its share of the ledger has one part.
#[derive(Drop)]
pub(crate) struct Seat<T: Drop, N: Board> {
    pub worker: u32,
    pub tools: T,
    pub made: u64,
    pub share: Share<N>,
    pub ghost by: { worker ≤ N.workers },
    pub ghost part: { share.parts ≡ 1 },
    pub ghost counted: { share.amount ≡ made },
}

impl<T: Drop, N: Board> Seat<T, N> {
    /// The seat of a worker that has made no event.
    pub fn new(worker: u32, tools: T, share: Share<N>) -> Seat<T, N>
        requires worker { worker ≤ N.workers }
        requires part { share.parts ≡ 1 }
        requires none { share.amount ≡ 0 }
        ensures { (result.worker ≡ worker) × (result.tools ≡ tools) × (result.made ≡ 0) }
    {
        Seat {
            worker,
            tools,
            made: 0,
            share,
        }
    }

    /// Counts an event.
    pub fn count(&mut self, events: &mut ledger::Book<N>)
        requires { events.old.total < 2 ^ 63 }
        ensures total { events.new.total ≡ events.old.total + 1 }
        ensures made { self.new.made ≡ self.old.made + 1 }
        ensures same { (self.new.worker ≡ self.old.worker) × (self.new.tools ≡ self.old.tools) }
    {
        let Seat { made, share, .. } = self;
        events.audit(share);
        events.add(share, 1);
        *made += 1;
    }
}
