// Steps between the numbers of a graph, as links along which a walk goes.
ghost use Rattle.std.specs.Prelude.{◌≡◌, OnOk};
ghost use Rattle.sm_model.specs.steps.Linking.{Adds};
ghost use Rattle.sm_transform.specs.steps.Steps.{IsStepAlong, step_between};

use sm_model::{Link, Relation};
use sm_tree::NoMemory;

/// Appends a step.
pub(crate) fn push_step(from: u32, to: u32, steps: &mut Vec<Link>) -> Result<(), NoMemory>
    ensures { OnOk result (Adds (λ s. s ≡ step_between from to) steps.old.items steps.new.items) }
{
    steps.push(Link {
        relation: Relation::Member,
        from,
        to,
    })?;
    Ok(())
}

/// Appends each of these links as a step.
pub(crate) fn push_along(links: &[Link], steps: &mut Vec<Link>) -> Result<(), NoMemory>
    ensures { OnOk result (Adds (IsStepAlong links.now) steps.old.items steps.new.items) }
{
    for link in links {
        push_link(link, steps)?;
    }
    Ok(())
}

fn push_link(link: &Link, steps: &mut Vec<Link>) -> Result<(), NoMemory>
    ensures { OnOk result (Adds (λ s. s ≡ step_between link.now.from link.now.to) steps.old.items steps.new.items) }
{
    push_step(link.from, link.to, steps)
}
