//! The limits of the options, and those that help names. `clap` borrows a text of help for as long as the words that it
//! parses, so the texts are written out; each number in them is proved here to be the limit itself.

/// The most workers that may solve parts side by side.
pub(crate) const MOST_WORKERS: u64 = fb_request::MOST_WORKERS as u64;

/// The most shots that may be solved at once.
pub(crate) const MOST_AT_ONCE: u64 = fb_request::MOST_AT_ONCE as u64;

/// The least distance of a lattice.
pub(crate) const LEAST_DISTANCE: u64 = 2;

/// The greatest distance of a lattice.
pub(crate) const MOST_DISTANCE: u64 = 255;

/// The most rounds of a lattice.
pub(crate) const MOST_ROUNDS: u64 = 1 << 20;

/// The most units of a plan.
pub(crate) const MOST_UNITS: u64 = fb_plan::plan::MOST_UNITS as u64;

/// The rate at which an edge is hit by every draw.
pub(crate) const MOST_RATE: u64 = 1 << 20;

/// The most shots that may be drawn.
pub(crate) const MOST_DRAWN: u64 = 1_000_000;

const _: () = prove!(fb_graph::graph::MOST_VERTICES == 1_048_576);

const _: () = prove!(fb_graph::graph::MOST_EDGES == 4_194_304);

const _: () = prove!(fb_graph::graph::MOST_WEIGHT == 1_073_741_824);

const _: () = prove!(fb_files::taking::MOST_SHOTS == 4_294_967_295);

const _: () = prove!(fb_verify::MOST_REPORT_BYTES == 1_073_741_824);

const _: () = prove!(fb_predict::MOST_OBSERVABLES == 1_024);

const _: () = prove!(MOST_WORKERS == 64);

const _: () = prove!(MOST_AT_ONCE == 64);

const _: () = prove!(MOST_ROUNDS == 1_048_576);

const _: () = prove!(MOST_UNITS == 4_096);

const _: () = prove!(MOST_RATE == 1_048_576);
