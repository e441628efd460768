//! A gate for the slots of a job that are some of a window's shots.

use fb_hands::Gate;

/// A gate that is given, for each slot of a job, the place of the slot's shot among others.
#[derive(Drop)]
pub(crate) struct Placed<'a, G> {
    pub gate: &'a G,
    pub places: &'a [u32],
}

impl<'a, G: Gate> Gate for Placed<'a, G> {
    ghost use Rattle.std.specs.Prelude.{◌<◌, get_or, length};

    ghost passed = { λ g worker slot node. slot < length g.places.now
        → G.passed g.gate.now worker (get_or g.places.now slot 0) node };

    fn before_post(&self, worker: u32, slot: u32, node: u32) {
        if let Some(place) = self.places.get(slot as usize) {
            self.gate.before_post(worker, *place, node);
        }
    }
}
