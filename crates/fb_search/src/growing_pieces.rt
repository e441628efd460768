//! What the pieces of growing trees are once a step that changes them in place is done.

ghost use Rattle.std.specs.Prelude.{◌≡◌, IfOk, OnOk, Ok};
ghost use Rattle.std.specs.Result.{result_and};
ghost use Rattle.fb_search.specs.InternalGrowing.{IsGrowing, growing_of};
ghost use Rattle.fb_search.specs.InternalPaces.{ArePaced};

use crate::growing::{Growing, GrowingPieces};
use fb_graph::NoMemory;

/// The trees that the pieces are, if the step is done.
pub(crate) fn into_growing<'a>(
    pieces: GrowingPieces<'a>,
    done: Result<(), NoMemory>,
) -> Result<Growing<'a>, NoMemory>
    requires { OnOk done (ArePaced pieces.parts pieces.forest × IsGrowing (growing_of pieces)) }
    ensures { IfOk result (λ growing. Ok growing ≡ result_and done (Ok (growing_of pieces.entry))) }
{
    let pieces = done.and(Ok(pieces))?;
    let GrowingPieces {
        parts,
        forest,
        watch,
    } = pieces;
    Ok(Growing {
        parts,
        forest,
        watch,
    })
}
