//! The fault of a named file.

/// Why a named file can't be used. `E` is the fault of a text that is refused.
#[derive(Clone, Copy, Debug, PartialEq, Eq)]
pub enum FileFault<E> {
    /// The text is refused. The fault is never want of memory.
    Refused(E),
    /// The file could not be opened, or a read of it failed.
    ReadFault,
    /// There was not enough memory.
    NoMemory,
}
