//! The item of a permit.

ghost use Rattle.std.specs.Prelude.{◌≡◌};

use fb_book::{Board, Permit};
use fb_hands::Item;

/// The item that the permit's worker holds.
pub fn item_of<N: Board>(permit: &Permit<N>) -> Item
    ensures worker { result.worker ≡ permit.now.worker }
    ensures slot { result.slot ≡ permit.now.slot }
    ensures node { result.node ≡ permit.now.node }
{
    Item {
        worker: permit.worker(),
        slot: permit.slot(),
        node: permit.node(),
    }
}
