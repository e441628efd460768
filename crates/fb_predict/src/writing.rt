//! The bits of a row's observables, written in a format.

ghost use Rattle.std.specs.Prelude.{OnOk, OnErr};
ghost use Rattle.fb_ports.specs.Causes.{Appends, AppendsPrefix, HasCause};
ghost use Rattle.fb_predict.specs.Codings.{coded};
ghost use Rattle.fb_predict.specs.Observing.{observed_bits};

use crate::coded::write_coded;
use crate::observables::{MOST_OBSERVABLES, Observables};
use fb_graph::Row;
use fb_ports::{Failed, Sink};
use fb_request::Coding;

/// Puts the text of the bits of the observables that a row flips. It takes no memory. After [`Failed`] the sink has
/// taken a prefix of the text.
pub fn write_bits<S: Sink>(
    sink: &mut S,
    to: Coding,
    observables: &Observables,
    row: &Row,
) -> Result<(), Failed>
    ensures all { OnOk result (Appends (S.taken sink.old) (S.taken sink.new)
        (coded to (observed_bits observables.now row.now))) }
    ensures prefix { OnErr result (AppendsPrefix (S.taken sink.old) (S.taken sink.new)
        (coded to (observed_bits observables.now row.now))) }
    ensures cause { HasCause (S.faults sink.old) (S.faults sink.new) result }
{
    let mut bits = [false; MOST_OBSERVABLES];
    observables.observe(row, &mut bits);
    write_coded(sink, to, &bits[..observables.count()])
}
