ghost use Rattle.std.specs.Prelude.{◌≡◌, ◌<◌, length};
ghost use Rattle.fb_layers.specs.Layers.{depth_of, height_of, layer_at};

use std::marker::Model;

/// The layer of each real vertex of a graph: the least number of edges with two real ends that lead to it from the
/// least vertex that they connect it with.
#[derive(Drop)]
pub struct Layers {
    layers: Vec<Option<u32>>,
}

impl Model for Layers {
    ghost use Rattle.std.specs.Prelude.{ℕ, List, Option};

    ghost Value = { List (Option ℕ) };

    ghost view = { λ l. l.layers.items };
}

impl Layers {
    /// The layers that a list gives.
    pub(crate) fn new(layers: Vec<Option<u32>>) -> Layers
        ensures { result ≡ layers.items }
    {
        Layers { layers }
    }

    /// The layer of a vertex; `None` exactly for a virtual one.
    pub fn layer(&self, v: u32) -> Option<u32>
        requires { v < length self.now }
        ensures { result ≡ layer_at self.now v }
    {
        self.layers[v as usize]
    }

    /// How many layers there are.
    #[tactic(auto, using(crate::proofs::Heights::heights))]
    pub fn height(&self) -> u64
        ensures { result ≡ height_of self.now }
    {
        let mut height = 0;
        for layer in &self.layers {
            let depth = depth_of(*layer);
            if height < depth {
                height = depth;
            }
        }
        height
    }
}

/// One more than a layer.
fn depth_of(layer: Option<u32>) -> u64
    ensures { result ≡ depth_of layer }
{
    layer.map_or(0, |n| u64::from(n) + 1)
}
