//! Readers of detector shots in Stim's result formats `01`, `b8`, `dets`, `hits` and `r8`, from bytes that come in any
//! pieces; and laws of these formats.
#![tactic(auto)]

mod answer;
mod dense;
mod indices;
mod laws;
mod listed;
mod packed;
mod parts;
mod record;
mod runs;
mod sparse;

pub use answer::Kind;
pub use dense::Records01;
pub use laws::{
    goes_on_01, goes_on_b8, goes_on_dets, goes_on_hits, goes_on_r8, reads_back_01, reads_back_b8,
    reads_back_hits, reads_back_r8,
};
pub use listed::RecordsHits;
pub use packed::RecordsB8;
pub use runs::RecordsR8;
pub use sparse::RecordsDets;
