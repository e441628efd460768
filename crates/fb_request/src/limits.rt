//! The limits of a run.

/// The most workers of a run. A crew's calls that start them are as deep as there are workers.
pub const MOST_WORKERS: u32 = 64;

/// The most shots of a run, which are solved at once.
pub const MOST_AT_ONCE: usize = 64;
