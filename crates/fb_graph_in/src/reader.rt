ghost use Rattle.std.specs.Prelude.{◌≡◌, ◌≢◌, IfOk, IfErr};
ghost use Rattle.fb_graph_in.specs.GraphText.{graph_of_text};

use crate::faults::TextFault;
use crate::numbers::read_numbers;
use fb_graph::{Graph, GraphFault};
use std::alloc::Global;

/// The decoding graph of a text, or the first rule that the text breaks. The text is one JSON value (RFC 8259): an
/// object with `vertex_num`, `weighted_edges` as triples of two ends and a weight, and `virtual_vertices` (the solver
/// initializer of Fusion Blossom). Other members are ignored.
pub fn read_graph(alloc: Global, bytes: &[u8]) -> Result<Graph, TextFault>
    ensures ok { IfOk result (λ g. graph_of_text bytes.now ≡ Ok g) }
    ensures err { IfErr result (λ e. e ≢ TextFault.NoMemory → graph_of_text bytes.now ≡ Err e) }
{
    let numbers = read_numbers(alloc, bytes)?;
    match Graph::build(alloc, numbers.vertex_num, &numbers.edges, &numbers.virtuals) {
        Ok(graph) => Ok(graph),
        Err(fault) => Err(text_fault(fault)),
    }
}

/// The fault of a text whose numbers break a rule of graphs.
fn text_fault(fault: GraphFault) -> TextFault
    ensures rule { fault ≢ GraphFault.NoMemory → result ≡ TextFault.Graph fault }
    ensures memory { fault ≡ GraphFault.NoMemory → result ≡ TextFault.NoMemory }
{
    match fault {
        GraphFault::NoMemory => TextFault::NoMemory,
        fault => TextFault::Graph(fault),
    }
}
