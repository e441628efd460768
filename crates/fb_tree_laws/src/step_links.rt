//! The links of walks that are kept step by step.

ghost use Rattle.fb_laws.specs.StepLinks.{PlainStep, StepsAreLink, EdgesTurned, StepsTurned, StepsJoined, StepsThrough};

/// Steps over edges with real ends, each beginning where the one before ended, are a link. Gone back they are the link
/// turned round, and one walk after another is the links joined.
pub fn steps_linked()
    ensures link { StepsAreLink PlainStep }
    ensures edges { EdgesTurned PlainStep }
    ensures turned { StepsTurned PlainStep }
    ensures joined { StepsJoined PlainStep }
    ensures through { StepsThrough PlainStep }
{}
