//! The requests of the commands.

use crate::coding::Coding;
use crate::format::Format;

/// What a command line asks for.
#[derive(Clone, Copy)]
pub enum Request<'a> {
    Decode(Decoding<'a>),
    Check(Checking<'a>),
    Sample(Sampling),
    Plan(Planning<'a>),
    Predict(Predicting<'a>),
}

/// Shots to decode: the names of the graph, of the plan if one is given, and of the shots, `-` for standard input; how
/// many workers solve parts side by side, and how many shots are solved at once, each 1 to 64; whether to write a trace.
#[derive(Clone, Copy)]
pub struct Decoding<'a> {
    pub graph: &'a str,
    pub plan: Option<&'a str>,
    pub shots: &'a str,
    pub format: Format,
    pub workers: u32,
    pub window: u32,
    pub trace: bool,
}

/// A report to check: the names of the graph, of the shots and of the report, `-` for standard input.
#[derive(Clone, Copy)]
pub struct Checking<'a> {
    pub graph: &'a str,
    pub shots: &'a str,
    pub format: Format,
    pub report: &'a str,
}

/// Shots to draw on a lattice and to decode.
#[derive(Clone, Copy)]
pub struct Sampling {
    /// The distance of the lattice, 2 to 255.
    pub distance: u32,
    /// The rounds of the lattice, 1 to 1,048,576.
    pub rounds: u32,
    /// The units of its plan, 1 to 4,096.
    pub units: u32,
    /// In how many of 1,048,576 draws an edge is hit, 0 to 1,048,576.
    pub rate: u32,
    /// The state at which the draws start.
    pub start: u64,
    /// How many shots are drawn, 1 to 1,000,000.
    pub shots: u32,
    /// How many workers solve parts side by side, 1 to 64.
    pub workers: u32,
    /// How many shots are solved at once, 1 to 64.
    pub window: u32,
}

/// A plan to make of a graph.
#[derive(Clone, Copy)]
pub struct Planning<'a> {
    /// The name of the graph, `-` for standard input.
    pub graph: &'a str,
    /// The units of the plan, 1 to 4,096.
    pub units: u32,
}

/// Flips of observables to predict by the rows of a report: the names of the graph, of the observables and of the report,
/// `-` for standard input, and the format that the bits of each row are written in.
#[derive(Clone, Copy)]
pub struct Predicting<'a> {
    pub graph: &'a str,
    pub observables: &'a str,
    pub report: &'a str,
    pub to: Coding,
}
