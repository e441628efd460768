//! What the readers of shots share: bytes that are fed in pieces, the numbers of a shot, what a reader returns, the reader
//! itself, and the law that an input may be cut anywhere. A format adds its own refusals, its definition of a record, and
//! how far a reader has come in a record begun.
#![tactic(auto)]

mod answer;
mod laws;
mod lines;
mod numbers;
mod pending;
mod record_format;
mod record_reader;

pub use answer::{Found, Next, NoMemory, Stop};
pub use laws::goes_on_by_lines;
pub use lines::without_return;
pub use numbers::Numbers;
pub use pending::Pending;
pub use record_format::RecordFormat;
pub use record_reader::RecordReader;
