//! Decoding graphs, the problem of minimum-weight decoding over them, and its definitions.

#![tactic(auto)]

mod building;
pub mod changes;
pub mod connected;
pub mod connecting;
pub mod cuts;
pub mod faults;
mod flood;
pub mod graph;
pub mod laws;
pub mod lists;
pub mod parts;
pub mod printed;
pub mod scope;
pub mod shot;
mod signs;
pub mod steps;
pub mod whole;

pub use changes::ChangeTable;
pub use connected::{Components, first_odd};
pub use connecting::{components, components_of};
pub use cuts::CutList;
pub use faults::{GraphFault, NoMemory};
pub use graph::{Graph, MOST_VERTICES, MOST_WEIGHT};
pub use laws::{
    closed_odd_set, least_weight, no_odd_closed_set, no_odd_component, odd_has_no_correction,
    odd_occurrences, packings_of_parts, resolving, turned_signs, walk_parity, weak_duality,
    weights_of_shots,
};
pub use lists::NumberList;
pub use parts::{Cut, Edge, Row};
pub use printed::{odd_ones, printed_cuts};
pub use scope::Scope;
pub use shot::Shot;
pub use steps::Steps;
pub use whole::Whole;
