//! The list of tasks of a walk, and the places inside a tree, which are put on it.
ghost use Rattle.std.specs.Prelude.{◌≡◌, ◌++◌, ◌∷◌, [], OnOk};
ghost use Rattle.serde_json.specs.View.{view, items_view, members_view};
ghost use Rattle.utoipa_check.specs.Places as specs;
ghost use Rattle.utoipa_check.specs.Places.{visits};
ghost use Rattle.utoipa_check.specs.Views.{tasks_of, target_of, some_target, layout_of, step_of};
ghost use Rattle.utoipa_tables.specs.Tables.{members_of};

use crate::layout::{Layout, Target, item_target, object_layout, target_at};
use crate::misfit::Step;
use serde_json::{Map, Value};
use std::alloc::AllocError;
use utoipa_tables::Row;

/// A place to look at, or one whose inner places have been looked at.
#[derive(Drop)]
pub(crate) struct Task<'a> {
    /// The step to the place.
    pub(crate) step: Step<'a>,
    /// What it is looked at as.
    pub(crate) target: Target,
    /// What stands there.
    pub(crate) tree: &'a Value,
    /// None where it is still to be looked at; else how many outcomes there were before those of the places inside it.
    pub(crate) below: Option<usize>,
}

/// Puts a place to look at on a list. Fails where memory runs out.
pub(crate) fn push_place<'a>(
    tasks: &mut Vec<Task<'a>>,
    step: Step<'a>,
    target: Target,
    tree: &'a Value,
) -> Result<(), AllocError>
    ensures { OnOk result (tasks_of tasks.new.items ≡ tasks_of tasks.old.items
        ++ visits (specs.place (step_of step.entry) (target_of target) (view tree.now) ∷ [])) }
{
    tasks.push(Task {
        step,
        target,
        tree,
        below: None,
    })?;
    Ok(())
}

/// Puts the items of an array on a list, as they are looked at. Fails where memory runs out.
fn push_items<'a>(
    tasks: &mut Vec<Task<'a>>,
    target: Target,
    items: &'a Vec<Value>,
) -> Result<(), AllocError>
    ensures { OnOk result (tasks_of tasks.new.items
        ≡ tasks_of tasks.old.items ++ visits (specs.items_places (target_of target) 0 (items_view items.now.items))) }
{
    let mut index: usize = 0;
    for item in items {
        push_place(tasks, Step::Index(index), target, item)?;
        index += 1;
    }
    Ok(())
}

/// Puts the members of an object on a list, each as its name says. Fails where memory runs out.
fn push_members<'a>(
    tasks: &mut Vec<Task<'a>>,
    layout: Layout,
    members: &'a Map<String, Value>,
) -> Result<(), AllocError>
    ensures { OnOk result (tasks_of tasks.new.items
        ≡ tasks_of tasks.old.items ++ visits (specs.members_places (layout_of layout) (members_view members.now.entries))) }
{
    for (name, member) in members.iter() {
        if let Some(target) = target_at(layout, name.as_str()) {
            push_place(tasks, Step::Name(name.as_str()), target, member)?;
        }
    }
    Ok(())
}

/// Puts the members that some rows name on a list. Fails where memory runs out.
fn push_rows<'a>(
    tasks: &mut Vec<Task<'a>>,
    rows: &'static [Row],
    tree: &'a Value,
) -> Result<(), AllocError>
    ensures { OnOk result (tasks_of tasks.new.items
        ≡ tasks_of tasks.old.items ++ visits (specs.fields_places (members_of rows.now) (view tree.now))) }
{
    for row in rows {
        if let Some(member) = tree.get(row.name) {
            push_place(
                tasks,
                Step::Name(row.name),
                Target::Document(row.kind),
                member,
            )?;
        }
    }
    Ok(())
}

/// Puts the places inside a tree on a list. Fails where memory runs out.
pub(crate) fn push_inner<'a>(
    tasks: &mut Vec<Task<'a>>,
    target: Target,
    tree: &'a Value,
) -> Result<(), AllocError>
    ensures { OnOk result (tasks_of tasks.new.items
        ≡ tasks_of tasks.old.items ++ visits (specs.inner_places (target_of target) (view tree.now))) }
{
    match tree {
        Value::Array(items) => match item_target(target) {
            Some(item) => push_items(tasks, item, items),
            None => Ok(()),
        },
        Value::Object(members) => match object_layout(target, tree) {
            Layout::SomeMembers(rows) => push_rows(tasks, rows, tree),
            layout => push_members(tasks, layout, members),
        },
        _ => Ok(()),
    }
}
