//! Small graphs and shots that meet the premises of the laws on weights of a shot and on their signs.

ghost use Rattle.fb_witnesses.specs.ShotWitnesses.{OddShotWitness, ShotWitness, SignedRootWitness};

/// Meets the premises of the laws on weights of a shot of either sign and on the row of a shot's solved root: on a line
/// whose one negative edge a shot turns up, and another edge down, and on a single edge that it turns down.
pub fn shot_witness()
    ensures best { ShotWitness }
    ensures odd { OddShotWitness }
    ensures root { SignedRootWitness }
{}
