//! Residues of edges.

ghost use Rattle.std.specs.Prelude.{◌≡◌, ◌+◌, ◌-◌};

/// What the potentials of an edge's two ends leave of its weight; 0 if they are more.
pub fn residue_left(weight: u64, potential: u64, far_potential: u64) -> u64
    ensures { result ≡ weight - (potential + far_potential) }
{
    weight
        .saturating_sub(potential)
        .saturating_sub(far_potential)
}
