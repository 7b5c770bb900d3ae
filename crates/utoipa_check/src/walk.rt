//! The walk through a tree: each place is looked at once, before those inside it, and what is found at it is made after them. The stack
//! that it takes does not grow with the depth of the tree.
ghost use Rattle.std.specs.Prelude.{◌≡◌, ◌≤◌, ◌+◌, ◌++◌, ◌∷◌, [], List, IfOk, OnOk, length};
ghost use Rattle.serde_json.specs.View.{view};
ghost use Rattle.utoipa_base.specs.Values.{values};
ghost use Rattle.utoipa_check.specs.Places as places;
ghost use Rattle.utoipa_check.specs.Views.{misfits_of, stacked, target_of, tasks_of, place_of};

use crate::layout::Target;
use crate::misfit::{Misfit, Outcome, Step};
use crate::task::{Task, push_inner, push_place};
use crate::tree::misfits_from;
use serde_json::Value;
use std::alloc::{AllocError, Global};

/// Puts a place back on the list, to be joined, and the places inside it above it, to be looked at. Fails where memory runs out.
pub(crate) fn begin_place<'a>(
    task: Task<'a>,
    below: usize,
    tasks: &mut Vec<Task<'a>>,
) -> Result<(), AllocError>
    ensures { OnOk result (tasks_of tasks.new.items
        ≡ (tasks_of tasks.old.items ++ places.join (place_of task.entry) below ∷ [])
        ++ places.visits (places.inner_places (place_of task.entry).target (place_of task.entry).tree)) }
{
    tasks.push(Task {
        step: task.step,
        target: task.target,
        tree: task.tree,
        below: Some(below),
    })?;
    push_inner(tasks, task.target, task.tree)
}

/// Puts the outcome of a place in place of those of the places inside it. Fails where memory runs out.
pub(crate) fn end_place<'a>(
    alloc: Global,
    task: Task<'a>,
    below: usize,
    outcomes: &mut Vec<Outcome<'a>>,
) -> Result<(), AllocError>
    requires { (rest : List places.Outcome) × (stacked outcomes.old.items
        ≡ places.outcomes (places.inner_places (place_of task).target (place_of task).tree) ++ rest)
        × (below ≡ length rest) }
    ensures { OnOk result ((rest : List places.Outcome)
        → stacked outcomes.old.items
        ≡ places.outcomes (places.inner_places (place_of task.entry).target (place_of task.entry).tree) ++ rest
        → below ≡ length rest → stacked outcomes.new.items ≡ places.outcome (place_of task.entry) ∷ rest) }
{
    let inner = outcomes.split_off(below)?;
    let misfits = misfits_from(alloc, task.target, task.tree, inner)?;
    outcomes.push(Outcome {
        step: task.step,
        misfits,
    })?;
    Ok(())
}

/// What does not fit in a tree, and how many places were looked at, added to those before. Fails where memory runs out.
pub(crate) fn walk<'a>(
    alloc: Global,
    target: Target,
    tree: &'a Value,
    visits: &mut u64,
) -> Result<Vec<Misfit<'a>>, AllocError>
    ensures found { IfOk result (λ v. misfits_of v.items ≡ places.found (target_of target) (view tree.now)) }
    ensures visits { visits.new ≤ visits.old + values (view tree.now) }
{
    let mut outcomes = Vec::new(alloc);
    let mut tasks = Vec::new(alloc);
    push_place(&mut tasks, Step::Index(0), target, tree)?;
    'walk: while let Some(task) = tasks.pop() {
        match task.below {
            None => {
                *visits = visits.saturating_add(1);
                begin_place(task, outcomes.len(), &mut tasks)?;
            }
            Some(below) => end_place(alloc, task, below, &mut outcomes)?,
        }
    }
    match outcomes.pop() {
        Some(outcome) => Ok(outcome.misfits),
        None => Ok(Vec::new(alloc)),
    }
}
