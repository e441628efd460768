ghost use Rattle.std.specs.Prelude.{◌≡◌};
ghost use Rattle.fb_links.specs.Walks.{IsChained};

use std::marker::Model;

/// One edge of a walk, given by its number, in the direction in which the walk passes it.
#[derive(Clone, Copy)]
pub struct Step {
    pub from: u32,
    pub to: u32,
    pub edge: u32,
    pub weight: u64,
}

/// A walk: steps, each beginning where the one before it ended. Contracts see it as the list of its steps.
#[derive(Drop)]
pub struct Walk {
    steps: Vec<Step>,
}

impl Model for Walk {
    ghost use Rattle.std.specs.Prelude.{List};
    ghost use Rattle.fb_links.specs.declared.walk.Step.{Step};
    ghost use Rattle.fb_links.specs.Walks.{IsChained};

    ghost Value = { List Step };

    ghost view = { λ w. w.steps.items };

    ghost invariant = { λ w. IsChained w.steps.items };
}

impl Walk {
    /// The walk of these steps.
    pub fn from_vec(steps: Vec<Step>) -> Walk
        requires { IsChained steps.items }
        ensures { result ≡ steps.items }
    {
        Walk { steps }
    }

    /// Does nothing. Its clause states what every walk keeps.
    pub fn keeps(&self)
        ensures { IsChained self.now }
    {
        let _ = &self.steps;
    }

    /// The steps of the walk.
    pub fn into_vec(self) -> Vec<Step>
        ensures { result.items ≡ self }
    {
        self.steps
    }

    /// The steps of the walk, in their order.
    pub fn steps(&self) -> &[Step]
        ensures { result.now ≡ self.now }
    {
        self.steps.as_slice()
    }
}
