//! A theorem on the definitions alone: a function that does nothing, and ensures it.

ghost use Rattle.fb_shots.specs.Formats.{GoesOnAnywhere};

/// However a file of shots is cut into pieces, its shots are the same, in each format: what is settled by a prefix
/// are the first shots of the whole, and what that prefix refuses is refused.
pub fn goes_on()
    ensures { GoesOnAnywhere }
{}
