//! What the workers of a job have, whatever board they share: hands that solve its items, and a gate before each post.

#![tactic(auto)]

pub mod gate;
pub mod hands;
pub mod runner;

pub use gate::{Gate, OpenGate};
pub use hands::Hands;
pub use runner::{Item, ItemRunner};
