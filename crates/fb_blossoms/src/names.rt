//! Cycles whose nodes and links have new numbers.

ghost use Rattle.std.specs.Prelude.{◌≡◌, ◌++◌, ◌∷◌, [], IfOk, OnOk};
ghost use Rattle.fb_links.specs.Names.{name_by};
ghost use Rattle.fb_blossoms.specs.Merged.{renamed_cycle, renamed_step};

use crate::{CycleStep, NoMemory};
use fb_links::names::Names;
use std::alloc::Global;

fn push_step(cycle: &mut Vec<CycleStep>, step: CycleStep) -> Result<(), NoMemory>
    ensures { OnOk result (cycle.new.items ≡ cycle.old.items ++ step ∷ []) }
{
    cycle.push(step)?;
    Ok(())
}

fn renamed_step(step: CycleStep, names: &Names, links: &Names) -> CycleStep
    ensures { result ≡ renamed_step (name_by names.now) (name_by links.now) step }
{
    CycleStep {
        node: names.of(step.node),
        link: links.of(step.link),
    }
}

/// The cycle with its nodes and links by their new numbers.
pub fn renamed_cycle(
    alloc: Global,
    cycle: &[CycleStep],
    names: &Names,
    links: &Names,
) -> Result<Vec<CycleStep>, NoMemory>
    ensures { IfOk result (λ new. new.items ≡ renamed_cycle (name_by names.now) (name_by links.now) cycle.now) }
{
    let mut new = Vec::new(alloc);
    for step in cycle {
        push_step(&mut new, renamed_step(*step, names, links))?;
    }
    Ok(new)
}
