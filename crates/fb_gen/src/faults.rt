ghost use Rattle.std.specs.Prelude.{◌≡◌};
ghost use Rattle.fb_gen.specs.FaultTexts.{fault_name};

use thiserror::Error;

/// Why there is no such lattice, or no such plan of it.
///
/// Its texts are for other callers: `fusion` prints a fault's name.
#[derive(Clone, Copy, Debug, PartialEq, Eq, Error)]
pub enum GenFault {
    /// The lattice has more than 1,048,576 vertices.
    #[error("the lattice has more than 1,048,576 vertices")]
    LatticeTooLarge,
    /// There are fewer rounds than one for each unit and one between each two of them.
    #[error("too few rounds for so many units")]
    TooFewRounds,
    /// Memory ran out.
    #[error("out of memory")]
    NoMemory,
}

impl GenFault {
    /// The name that is printed.
    pub fn name(self) -> &'static str
        ensures { result.now ≡ fault_name self }
    {
        match self {
            GenFault::LatticeTooLarge => "LatticeTooLarge",
            GenFault::TooFewRounds => "TooFewRounds",
            GenFault::NoMemory => "NoMemory",
        }
    }
}
