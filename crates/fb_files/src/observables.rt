//! The observables of a file.

ghost use Rattle.std.specs.Prelude.{◌≡◌, ◌≢◌, ◌<◌, [], ◌∷◌, IfOk, IfErr, IsErrOf, Err};
ghost use Rattle.fb_ports.specs.Causes.{HasRoom, CountsFault};
ghost use Rattle.fb_files.specs.Judging.{Asks, AsksPrefix, Holds, IfRefused, AreNoObservables, AreObservables};

use crate::fault::FileFault;
use crate::named::read_named;
use fb_json::MOST_TEXT_BYTES;
use fb_ports::Files;
use fb_predict::{ObsFault, Observables, read_observables};
use std::alloc::Global;

/// The observables of the named file, over a graph with a number of edges. Returns an error if its text is refused, the file
/// can't be opened or read, or memory runs out.
pub fn read_observables_file<F: Files>(
    alloc: Global,
    files: &mut F,
    name: &str,
    edge_count: u32,
) -> Result<Observables, FileFault<ObsFault>>
    requires { HasRoom (F.asked files.old) 16 }
    ensures asks { AsksPrefix (F.asked files.old) (F.asked files.new) (name.now ∷ []) }
    ensures asked { result ≢ Err FileFault.NoMemory → Asks (F.asked files.old) (F.asked files.new) (name.now ∷ []) }
    ensures names { F.named files.new ≡ F.named files.old }
    ensures observables { IfOk result (λ o. Holds (F.named files.old) name.now (AreObservables edge_count o)) }
    ensures refused { IfErr result (IfRefused (λ fault. Holds (F.named files.old) name.now (AreNoObservables edge_count fault))) }
    ensures faults { CountsFault (IsErrOf result FileFault.ReadFault) (F.faults files.old) (F.faults files.new) }
    ensures reported { F.faults files.old < F.faults files.new → IsErrOf result FileFault.ReadFault }
{
    let text = read_named(alloc, files, name, MOST_TEXT_BYTES, ObsFault::TooLong)?;
    match read_observables(alloc, &text, edge_count) {
        Ok(observables) => Ok(observables),
        Err(ObsFault::NoMemory) => Err(FileFault::NoMemory),
        Err(fault) => Err(FileFault::Refused(fault)),
    }
}
