//! What may be wrong with a command line.

/// What is wrong with a command line.
#[derive(Clone, Copy, Debug, PartialEq, Eq)]
pub enum UsageKind {
    /// It is no command with its options, or it asks for help or the version.
    Parse,
    /// The word after `--format` names no format.
    Format,
    /// More than one name is that of standard input.
    TwoInputs,
}
