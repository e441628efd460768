//! The graph of a file.

ghost use Rattle.std.specs.Prelude.{◌≡◌, ◌≢◌, ◌<◌, [], ◌∷◌, IfOk, IfErr, IsErrOf, Err};
ghost use Rattle.fb_ports.specs.Causes.{HasRoom, CountsFault};
ghost use Rattle.fb_files.specs.Judging.{Asks, AsksPrefix, Holds, IfRefused, IsGraphText, IsNoGraph};

use crate::fault::FileFault;
use crate::named::read_named;
use fb_graph::Graph;
use fb_graph_in::{TextFault, read_graph};
use fb_json::MOST_TEXT_BYTES;
use fb_ports::Files;
use std::alloc::Global;

/// The graph of the named file. Returns an error if its text is refused, the file can't be opened or read, or memory runs out.
pub fn read_graph_file<F: Files>(
    alloc: Global,
    files: &mut F,
    name: &str,
) -> Result<Graph, FileFault<TextFault>>
    requires { HasRoom (F.asked files.old) 16 }
    ensures asks { AsksPrefix (F.asked files.old) (F.asked files.new) (name.now ∷ []) }
    ensures asked { result ≢ Err FileFault.NoMemory → Asks (F.asked files.old) (F.asked files.new) (name.now ∷ []) }
    ensures names { F.named files.new ≡ F.named files.old }
    ensures graph { IfOk result (λ g. Holds (F.named files.old) name.now (IsGraphText g)) }
    ensures refused { IfErr result (IfRefused (λ fault. Holds (F.named files.old) name.now (IsNoGraph fault))) }
    ensures faults { CountsFault (IsErrOf result FileFault.ReadFault) (F.faults files.old) (F.faults files.new) }
    ensures reported { F.faults files.old < F.faults files.new → IsErrOf result FileFault.ReadFault }
{
    let text = read_named(alloc, files, name, MOST_TEXT_BYTES, TextFault::TooLong)?;
    match read_graph(alloc, &text) {
        Ok(graph) => Ok(graph),
        Err(TextFault::NoMemory) => Err(FileFault::NoMemory),
        Err(fault) => Err(FileFault::Refused(fault)),
    }
}
