//! The layers of a decoding graph, and plans that cut it by them.

#![tactic(auto)]

pub mod depths;
pub mod distances;
pub mod laws;
pub mod planning;
mod ranges;
mod rounds;
pub mod runs;
mod search;

pub use depths::Layers;
pub use distances::layers;
pub use laws::{near_layers, one_layer, one_layering, one_plan, planned_or_too_few};
pub use planning::ByLayers;
pub use runs::add_vertex;
