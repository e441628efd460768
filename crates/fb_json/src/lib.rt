//! Texts of JSON (RFC 8259), over the meaning that `serde_json` gives them.
#![tactic(auto)]

pub mod laws;
pub mod number_tokens;
pub mod text;

pub use number_tokens::{next_natural, next_naturals, next_whole};
pub use text::{MOST_TEXT_BYTES, NoValue, read_value};
