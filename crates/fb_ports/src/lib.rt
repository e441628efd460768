#![tactic(auto)]

//! The ports to the outside: files that are read by name, sinks that take bytes, and the outbox, where text waits for a
//! sink.
//!
//! Each port counts its faults, and returns [`Failed`] only if that count rose in the call.

mod memory;
mod outbox;
mod reading;
mod system;
mod writing;

pub use memory::{MemFiles, MemSink};
pub use outbox::{Outbox, RowsFault};
pub use reading::{Files, MOST_ASKED, ReadError, read_at_most, read_whole};
pub use system::{OsFiles, OsSink};
pub use writing::{Sink, put_all, put_parts};

/// A call on the outside failed. Its port counted the fault.
#[derive(Clone, Copy, Debug, PartialEq, Eq)]
pub struct Failed;

/// Memory ran out.
pub use std::alloc::AllocError as NoMemory;
