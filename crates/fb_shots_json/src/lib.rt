//! A reader of shots as JSON values, one to a line (the syndrome of Fusion Blossom, Wu and Zhong 2023), from bytes that
//! come in any pieces.
#![tactic(auto)]

mod answer;
mod changes;
mod entries;
mod judging;
mod laws;
mod reader;

pub use answer::Kind;
pub use laws::goes_on_json;
pub use reader::RecordsJson;
