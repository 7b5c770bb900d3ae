//! The moves of a walk over two trees at once.
ghost use Rattle.std.specs.Prelude.{◌≡◌, ◌++◌, OnOk};
ghost use Rattle.serde_json.specs.View.{view, items_view, members_view};
ghost use Rattle.utoipa_check.specs.Moves as specs;
ghost use Rattle.utoipa_check.specs.DroppedViews.{moves_of};

use crate::misfit::Step;
use serde_json::{Map, Value};
use std::alloc::AllocError;

/// A move of a walk over two trees at once.
#[derive(Drop)]
pub(crate) enum Move<'t, 'w> {
    /// To the tree behind a step, to compare it with what was written there.
    Enter(Step<'t>, &'t Value, Option<&'w Value>),
    /// Back by a step.
    Leave,
}

/// Puts the move to each item on a list. Fails where memory runs out.
fn push_items<'t, 'w>(
    moves: &mut Vec<Move<'t, 'w>>,
    items: &'t Vec<Value>,
    written: &'w Value,
) -> Result<(), AllocError>
    ensures { OnOk result (moves_of moves.new.items
        ≡ moves_of moves.old.items ++ specs.items_moves 0 (items_view items.now.items) (view written.now)) }
{
    let mut index: usize = 0;
    for item in items {
        moves.push(Move::Enter(Step::Index(index), item, written.get(index)))?;
        index += 1;
    }
    Ok(())
}

/// Puts the move to each member on a list. Fails where memory runs out.
fn push_members<'t, 'w>(
    moves: &mut Vec<Move<'t, 'w>>,
    members: &'t Map<String, Value>,
    written: &'w Value,
) -> Result<(), AllocError>
    ensures { OnOk result (moves_of moves.new.items
        ≡ moves_of moves.old.items ++ specs.members_moves (members_view members.now.entries) (view written.now)) }
{
    for (name, member) in members.iter() {
        let name = name.as_str();
        moves.push(Move::Enter(Step::Name(name), member, written.get(name)))?;
    }
    Ok(())
}

/// Puts the moves to all that stands in a tree on a list. Fails where memory runs out.
pub(crate) fn push_inner<'t, 'w>(
    moves: &mut Vec<Move<'t, 'w>>,
    tree: &'t Value,
    written: &'w Value,
) -> Result<(), AllocError>
    ensures { OnOk result (moves_of moves.new.items
        ≡ moves_of moves.old.items ++ specs.inner_moves (view tree.now) (view written.now)) }
{
    match tree {
        Value::Array(items) => push_items(moves, items, written),
        Value::Object(members) => push_members(moves, members, written),
        _ => Ok(()),
    }
}
