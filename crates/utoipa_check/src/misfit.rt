//! A place of a tree that does not fit, with the cause.
ghost use Rattle.std.specs.Prelude.{◌≡◌, ◌++◌, IfOk, OnOk, []};
ghost use Rattle.utoipa_check.specs.Misfits as specs;
ghost use Rattle.utoipa_check.specs.Places.{joined};
ghost use Rattle.utoipa_check.specs.Views.{step_of, cause_of, misfits_of, outcome_of, stacked};

use std::alloc::{AllocError, Global};
use utoipa_tables::Kind;

/// A step from a tree to one that stands in it.
#[derive(Clone, Copy, Debug, Drop)]
pub enum Step<'a> {
    /// To the member of this name, of an object.
    Name(&'a str),
    /// To the item of this index, of an array.
    Index(usize),
}

/// Why a tree does not fit.
#[derive(Clone, Copy, Drop)]
pub enum Cause {
    /// An object lacks this member, which is required.
    Absent(&'static str),
    /// A tree is of another sort than the trees of this kind.
    Expected(Kind),
    /// A text is none of these words.
    UnknownWord(&'static [&'static str]),
    /// A tree is of none of these kinds.
    NoAlternative(&'static [Kind]),
    /// A tree stands under a name that is none of these, which would say what it is. It is read all the same, so that no misfit has this
    /// cause.
    UnknownName(&'static [&'static str]),
    /// A number is neither an `i64` nor a `u64`: no document holds such a number.
    Fraction,
}

/// The steps that lead from a tree to a place in it.
#[derive(Drop)]
pub struct Pointer<'a> {
    /// The steps, the last one first.
    pub steps: Vec<Step<'a>>,
}

/// A place of a tree that does not fit, with the cause.
#[derive(Drop)]
pub struct Misfit<'a> {
    /// The place.
    pub pointer: Pointer<'a>,
    /// Why the tree there does not fit.
    pub cause: Cause,
}

/// What was found in a tree inside another.
#[derive(Drop)]
pub(crate) struct Outcome<'a> {
    /// The step to it.
    pub(crate) step: Step<'a>,
    /// What does not fit in it.
    pub(crate) misfits: Vec<Misfit<'a>>,
}

/// A misfit of the tree itself. Fails where memory runs out.
pub(crate) fn here<'a>(alloc: Global, cause: Cause) -> Result<Vec<Misfit<'a>>, AllocError>
    ensures { IfOk result (λ v. misfits_of v.items ≡ specs.here (cause_of cause)) }
{
    let mut found = Vec::new(alloc);
    found.push(Misfit {
        pointer: Pointer {
            steps: Vec::new(alloc),
        },
        cause,
    })?;
    Ok(found)
}

/// Adds a misfit of the tree itself. Fails where memory runs out.
pub(crate) fn put_here(
    alloc: Global,
    cause: Cause,
    found: &mut Vec<Misfit<'_>>,
) -> Result<(), AllocError>
    ensures { OnOk result (misfits_of found.new.items ≡ misfits_of found.old.items ++ specs.here (cause_of cause)) }
{
    found.push(Misfit {
        pointer: Pointer {
            steps: Vec::new(alloc),
        },
        cause,
    })?;
    Ok(())
}

/// Adds the misfits of a tree, by the places of the tree that it stands in. Fails where memory runs out.
pub(crate) fn put_under<'a>(
    step: Step<'a>,
    inner: Vec<Misfit<'a>>,
    found: &mut Vec<Misfit<'a>>,
) -> Result<(), AllocError>
    ensures { OnOk result (misfits_of found.new.items
        ≡ misfits_of found.old.items ++ specs.under (step_of step.entry) (misfits_of inner.entry.items)) }
{
    for mut misfit in inner {
        misfit.pointer.steps.push(step)?;
        found.push(misfit)?;
    }
    Ok(())
}

/// Whether there is no misfit.
pub(crate) fn is_fit(found: &Vec<Misfit<'_>>) -> bool
    ensures { result ≡ specs.is_fit (misfits_of found.now.items) }
{
    found.is_empty()
}

/// The misfits of a tree, by the places of the tree that it stands in. Fails where memory runs out.
pub(crate) fn under<'a>(
    alloc: Global,
    step: Step<'a>,
    inner: Vec<Misfit<'a>>,
) -> Result<Vec<Misfit<'a>>, AllocError>
    ensures { IfOk result (λ v. misfits_of v.items ≡ specs.under (step_of step.entry) (misfits_of inner.entry.items)) }
{
    let mut found = Vec::new(alloc);
    put_under(step, inner, &mut found)?;
    Ok(found)
}

/// All that was found behind some steps, the last of which comes first. Fails where memory runs out.
pub(crate) fn join_all<'a>(
    alloc: Global,
    inner: Vec<Outcome<'a>>,
) -> Result<Vec<Misfit<'a>>, AllocError>
    ensures { IfOk result (λ v. misfits_of v.items ≡ joined (stacked inner.entry.items)) }
{
    let mut found = Vec::new(alloc);
    let mut left = inner;
    'join: while let Some(outcome) = left.pop() {
        put_under(outcome.step, outcome.misfits, &mut found)?;
    }
    Ok(found)
}
