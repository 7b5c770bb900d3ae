//! The places of a document that were meant otherwise than they are read.
ghost use Rattle.std.specs.Prelude.{◌≡◌, ◌++◌, ◌∷◌, List, IfOk, OnOk, length};
ghost use Rattle.serde_json.specs.View.{view};
ghost use Rattle.utoipa_check.specs.Doubted.{doubted, all_doubted};
ghost use Rattle.utoipa_check.specs.Doubts as specs;
ghost use Rattle.utoipa_check.specs.Places as places;
ghost use Rattle.utoipa_check.specs.Truth.{AllTrue};
ghost use Rattle.utoipa_check.specs.Views.{misfits_of, stacked, place_of};
ghost use Rattle.utoipa_tables.specs.Tables.{kind_of};

use crate::doubter::doubts_from;
use crate::layout::Target;
use crate::misfit::{Misfit, Outcome, Step};
use crate::task::{Task, push_place};
use crate::walk::{begin_place, end_place};
use serde_json::Value;
use std::alloc::{AllocError, Global};
use utoipa_tables::Kind;

/// Puts what is in doubt at a place in place of what is in doubt at the places inside it. Fails where memory runs out.
fn end_doubts<'a>(
    alloc: Global,
    task: &Task<'a>,
    below: usize,
    outcomes: &Vec<Outcome<'a>>,
    found: &mut Vec<Outcome<'a>>,
) -> Result<(), AllocError>
    requires outcomes { (rest : List places.Outcome) × (stacked outcomes.now.items
        ≡ places.outcomes (places.inner_places (place_of task.now).target (place_of task.now).tree) ++ rest)
        × (below ≡ length rest) }
    requires found { (rest : List places.Outcome) × (stacked found.old.items
        ≡ all_doubted (places.inner_places (place_of task.now).target (place_of task.now).tree) ++ rest)
        × (below ≡ length rest) }
    ensures { OnOk result ((rest : List places.Outcome)
        → stacked found.old.items
        ≡ all_doubted (places.inner_places (place_of task.now).target (place_of task.now).tree) ++ rest
        → below ≡ length rest → stacked found.new.items ≡ doubted (place_of task.now) ∷ rest) }
{
    let inner = found.split_off(below)?;
    let misfits = doubts_from(alloc, task.target, task.tree, &outcomes[below..], inner)?;
    found.push(Outcome {
        step: task.step,
        misfits,
    })?;
    Ok(())
}

/// The places of a tree that do not fit what was meant there, where something else is read, each with the cause. Fails where memory runs
/// out.
///
/// A schema reads by the first of five tables that fits, and each keeps its own members alone: so `{"type":"array","items":{"type":3}}`
/// reads as an object without `items`, and has no misfit. It was meant as an array, since it says so, and what does not fit an array is
/// in doubt, here `/items/type`. An object with a `$ref` where a reference may stand was meant as one, whatever it reads as. An OAuth flow
/// under a name that is none of the five reads by the first of their tables that fits, and its name is in doubt. Of each choice
/// that reads as it was meant, and of each that reads as nothing, which is a misfit, none is in doubt. Those inside a member are
/// listed where it is kept.
///
/// Each place is looked at once, and no misfit is copied more than twice.
pub fn doubts<'a>(alloc: Global, kind: Kind, tree: &'a Value) -> Result<Vec<Misfit<'a>>, AllocError>
    ensures exact { IfOk result (λ v. misfits_of v.items ≡ specs.doubts (kind_of kind) (view tree.now)) }
    ensures sound { IfOk result (λ v. AllTrue (kind_of kind) (view tree.now) (misfits_of v.items)) }
{
    let mut outcomes = Vec::new(alloc);
    let mut found = Vec::new(alloc);
    let mut tasks = Vec::new(alloc);
    push_place(&mut tasks, Step::Index(0), Target::Document(kind), tree)?;
    'walk: while let Some(task) = tasks.pop() {
        match task.below {
            None => begin_place(task, outcomes.len(), &mut tasks)?,
            Some(below) => {
                end_doubts(alloc, &task, below, &outcomes, &mut found)?;
                end_place(alloc, task, below, &mut outcomes)?;
            }
        }
    }
    match found.pop() {
        Some(outcome) => Ok(outcome.misfits),
        None => Ok(Vec::new(alloc)),
    }
}
