//! The reader of observables.

ghost use Rattle.std.specs.Prelude.{◌≡◌, ◌≢◌, IfOk, IfErr, Ok, Err};
ghost use Rattle.fb_predict.specs.ObservableText.{observables_of_text};

use crate::entries::read_lists;
use crate::faults::ObsFault;
use crate::observables::{MOST_OBSERVABLES, Observables};
use crate::rules::{first_beyond, first_repeated};
use std::alloc::Global;

/// The observables of a text over a graph with a number of edges, or the first rule that the text breaks. The text is
/// one JSON value (RFC 8259): an object whose member `observables` lists the edges of each. Other members are ignored.
pub fn read_observables(
    alloc: Global,
    bytes: &[u8],
    edge_count: u32,
) -> Result<Observables, ObsFault>
    ensures ok { IfOk result (λ o. observables_of_text bytes.now edge_count ≡ Ok o) }
    ensures err { IfErr result (λ e. e ≢ ObsFault.NoMemory
        → observables_of_text bytes.now edge_count ≡ Err e) }
{
    let lists = read_lists(alloc, bytes)?;
    if lists.len() > MOST_OBSERVABLES {
        return Err(ObsFault::TooMany);
    }
    if let Some(i) = first_beyond(edge_count, lists.as_slice()) {
        return Err(ObsFault::EdgeOutOfRange(i as u64));
    }
    match first_repeated(alloc, edge_count, lists.as_slice()) {
        Ok(None) => {}
        Ok(Some(i)) => return Err(ObsFault::EdgeRepeated(i as u64)),
        Err(_) => return Err(ObsFault::NoMemory),
    }
    Observables::build(alloc, edge_count, lists).map_err(|_| ObsFault::NoMemory)
}
