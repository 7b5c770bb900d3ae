//! What a tree has that a written one lacks.
//!
//! The list is defined by recursion over both trees (`specs/Dropped.antt`), and what stands in it a second time by the steps to a place,
//! without a list and without a test (`specs/IsDropped.antt`). It is empty exactly where the written tree has everything that the tree
//! has (`specs/Has.antt`).
//!
//! The walk goes over both trees at once. It makes moves off a list (`moves.rt`) and calls itself nowhere, so that the stack that it
//! takes does not grow with the depth of a tree. A place that is listed is a leaf of the walk; the last one is found first, and the list
//! is turned around at the end.
ghost use Rattle.std.specs.Prelude.{◌≡◌, ◌≤◌, ◌<◌, ◌+◌, ◌*◌, ◌↔◌, ◌++◌, ◌∷◌, [], List, reverse, Some, true, false, IfOk, IfErr, OnOk, IsErrOf};
ghost use Rattle.serde_json.specs.View.{view};
ghost use Rattle.serde_json.specs.Written.{has_float};
ghost use Rattle.utoipa_base.specs.Faults.{Refuses};
ghost use Rattle.utoipa_base.specs.Reading.{read};
ghost use Rattle.utoipa_base.specs.Values.{values};
ghost use Rattle.utoipa_check.specs.Dropped as specs;
ghost use Rattle.utoipa_check.specs.Moves as walk;
ghost use Rattle.utoipa_check.specs.DroppedViews.{loss_of, dropped_of, all_dropped, stacked, moves_of, move_of, path_of};
ghost use Rattle.utoipa_check.specs.Has.{Has, IsKept};
ghost use Rattle.utoipa_check.specs.IsDropped.{IsDropped, IsListed};
ghost use Rattle.utoipa_check.specs.Misfits.{Step as StepOf};
ghost use Rattle.utoipa_check.specs.Said.{dropped_text, loss_text};
ghost use Rattle.utoipa_check.specs.Views.{step_of};

use crate::head::{is_alike, is_empty};
use crate::misfit::{Pointer, Step};
use crate::moves::{Move, push_inner};
use crate::pointer::ShownPointer;
use serde_json::Value;
use std::alloc::{AllocError, Global};
use std::fmt;
use utoipa_base::{ReadFault, Tree};

/// What has become of a tree that was written again.
#[derive(Clone, Copy, Debug, Drop)]
pub enum Loss {
    /// Nothing stands at its place.
    Absent,
    /// It is null, `{}` or `[]`, and the member that held it is left out.
    LeftOut,
    /// Another value stands at its place.
    Changed,
}

/// A place of a tree that a written tree lacks, or has another value at.
#[derive(Drop)]
pub struct Dropped<'a> {
    /// The place.
    pub pointer: Pointer<'a>,
    /// What has become of the tree there.
    pub loss: Loss,
}

/// What has become of a tree at whose place nothing stands.
fn absence(step: Step<'_>, tree: &Value) -> Loss
    ensures { loss_of result ≡ specs.absence (step_of step.entry) (view tree.now) }
{
    match step {
        Step::Name(_) if is_empty(tree) => Loss::LeftOut,
        _ => Loss::Absent,
    }
}

/// Adds the place to which some steps lead. Fails where memory runs out.
fn put_place<'a>(
    alloc: Global,
    path: &Vec<Step<'a>>,
    loss: Loss,
    found: &mut Vec<Dropped<'a>>,
) -> Result<(), AllocError>
    ensures { OnOk result (all_dropped found.new.items
        ≡ all_dropped found.old.items ++ walk.along (path_of path.now.items) (specs.here (loss_of loss))) }
{
    let mut steps = Vec::new(alloc);
    for step in path {
        steps.push(*step)?;
    }
    steps.reverse();
    found.push(Dropped {
        pointer: Pointer { steps },
        loss,
    })?;
    Ok(())
}

/// Adds the place to which some steps lead, if another value stands there, and else puts the moves to all that stands in the tree there
/// on a list. Fails where memory runs out.
fn compare<'t, 'w>(
    alloc: Global,
    tree: &'t Value,
    written: &'w Value,
    path: &Vec<Step<'t>>,
    moves: &mut Vec<Move<'t, 'w>>,
    found: &mut Vec<Dropped<'t>>,
) -> Result<(), AllocError>
    ensures left { OnOk result (walk.left (path_of path.now.items) (stacked moves.new.items) ++ reverse (all_dropped found.new.items)
        ≡ (walk.left (path_of path.now.items) (stacked moves.old.items) ++ walk.along (path_of path.now.items) (specs.dropped (view tree.now) (view written.now)))
        ++ reverse (all_dropped found.old.items)) }
    ensures fewer { OnOk result (2 + walk.work_left (moves_of moves.new.items)
        ≤ walk.work_left (moves_of moves.old.items) + 2 * values (view tree.now)) }
{
    if !is_alike(tree, written) {
        return put_place(alloc, path, Loss::Changed, found);
    }
    push_inner(moves, tree, written)
}

/// Makes a move that was taken off a list. Fails where memory runs out.
fn make_move<'t, 'w>(
    alloc: Global,
    next: Move<'t, 'w>,
    path: &mut Vec<Step<'t>>,
    moves: &mut Vec<Move<'t, 'w>>,
    found: &mut Vec<Dropped<'t>>,
) -> Result<(), AllocError>
    ensures left { OnOk result (walk.left (path_of path.new.items) (stacked moves.new.items) ++ reverse (all_dropped found.new.items)
        ≡ walk.left (path_of path.old.items) (move_of next.entry ∷ stacked moves.old.items) ++ reverse (all_dropped found.old.items)) }
    ensures fewer { OnOk result (walk.work_left (moves_of moves.new.items) < walk.work_left (moves_of moves.old.items) + walk.work_left (move_of next.entry ∷ [])) }
{
    match next {
        Move::Enter(step, tree, written) => {
            path.push(step)?;
            moves.push(Move::Leave)?;
            match written {
                Some(written) => compare(alloc, tree, written, path, moves, found),
                None => put_place(alloc, path, absence(step, tree), found),
            }
        }
        Move::Leave => {
            let _last = path.pop();
            Ok(())
        }
    }
}

/// The places of a tree that a written tree lacks or has another value at, in the order of the tree, each with what has become of the
/// tree there. Fails where memory runs out.
///
/// Of a place that is listed, none of the places inside it is. Objects are compared by name and arrays by index: where the written
/// array is shorter, the items beyond its end are absent. What the written tree has beyond the tree drops nothing. Whole numbers are
/// the same by their value and fractions by their bits, and a whole number is no fraction.
///
/// The list is empty exactly where the written tree has everything that the tree has. The walk takes time linear in the tree and in
/// the list, but for looking up each member by its name.
pub fn dropped_between<'t>(
    alloc: Global,
    tree: &'t Value,
    written: &Value,
) -> Result<Vec<Dropped<'t>>, AllocError>
    ensures exact { IfOk result (λ v. all_dropped v.items ≡ specs.dropped (view tree.now) (view written.now)) }
    ensures places { IfOk result (λ v. (steps : List StepOf) (loss : specs.Loss)
        → IsListed (steps, loss) (all_dropped v.items) ↔ IsDropped steps loss (view tree.now) (view written.now)) }
    ensures nothing { IfOk result (λ v. (v.items ≡ []) ↔ Has (view written.now) (view tree.now)) }
{
    let mut path = Vec::new(alloc);
    let mut moves = Vec::new(alloc);
    let mut found = Vec::new(alloc);
    compare(alloc, tree, written, &path, &mut moves, &mut found)?;
    'walk: while let Some(next) = moves.pop() {
        make_move(alloc, next, &mut path, &mut moves, &mut found)?;
    }
    found.reverse();
    Ok(found)
}

/// The places of a tree that its document, written again, lacks or has another value at, as [`dropped_between`] lists them.
///
/// Fails where the tree is no document of the type, as [`Tree::from_value`] does, and where memory runs out.
pub fn dropped_by<'t, T: Tree>(
    alloc: Global,
    tree: &'t Value,
) -> Result<Vec<Dropped<'t>>, ReadFault>
    ensures fraction { IsErrOf result ReadFault.Fraction ↔ (has_float (view tree.now) ≡ true) }
    ensures exact { IfOk result (λ v. specs.dropped_by T.kind (view tree.now) ≡ Some (all_dropped v.items)) }
    ensures nothing { IfOk result (λ v. (v.items ≡ []) ↔ IsKept T.kind (view tree.now)) }
    ensures err { IfErr result (λ e. has_float (view tree.now) ≡ false → Refuses (read T.kind (view tree.now)) e) }
{
    let document = T::from_value(alloc, tree)?;
    let written = document.to_value(alloc)?;
    Ok(dropped_between(alloc, tree, &written)?)
}

impl fmt::Display for Loss {
    ghost output = { λ x. Some (loss_text (loss_of x)) };

    fn fmt<W: fmt::Write>(&self, f: &mut fmt::Formatter<W>) -> fmt::Result {
        match self {
            Loss::Absent => write!(f, "absent"),
            Loss::LeftOut => write!(f, "left out as empty"),
            Loss::Changed => write!(f, "another value"),
        }
    }
}

/// The JSON Pointer of the place, and what has become of the tree there.
impl fmt::Display for Dropped<'_> {
    ghost output = { λ x. Some (dropped_text (dropped_of x)) };

    fn fmt<W: fmt::Write>(&self, f: &mut fmt::Formatter<W>) -> fmt::Result {
        let pointer = ShownPointer(&self.pointer);
        let loss = self.loss;
        write!(f, "{pointer}: {loss}")
    }
}
