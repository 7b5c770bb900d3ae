//! All that does not fit in a tree.
ghost use Rattle.std.specs.Prelude.{◌≡◌, ◌↔◌, [], IfOk};
ghost use Rattle.serde_json.specs.View.{view};
ghost use Rattle.utoipa_base.specs.Docs.{Doc};
ghost use Rattle.utoipa_base.specs.WellFormed.{ReadsAs};
ghost use Rattle.utoipa_check.specs.Misfits as specs;
ghost use Rattle.utoipa_check.specs.Misfits.{misfits_and_fractions};
ghost use Rattle.utoipa_check.specs.Truth.{AllTrue};
ghost use Rattle.utoipa_check.specs.Views.{cause_of, misfits_of};
ghost use Rattle.utoipa_tables.specs.Tables.{kind_of};

use crate::layout::Target;
use crate::misfit::{Cause, Misfit};
use crate::walk::walk;
use serde_json::Value;
use std::alloc::{AllocError, Global};
use utoipa_base::has_fraction;
use utoipa_tables::Kind;

/// What does not fit in a tree.
#[derive(Drop)]
pub struct Report<'a> {
    /// The places that do not fit, in the order of the member tables, and then the fractions. A fraction where another tree is expected
    /// is told once, as a fraction.
    pub misfits: Vec<Misfit<'a>>,
}

/// Whether a cause is that of a fraction.
fn is_fraction(cause: Cause) -> bool
    ensures { result ≡ specs.is_fraction (cause_of cause) }
{
    matches!(cause, Cause::Fraction)
}

/// The misfits that are no fractions, in their order. Fails where memory runs out.
pub fn without_fractions<'a>(
    alloc: Global,
    found: Vec<Misfit<'a>>,
) -> Result<Vec<Misfit<'a>>, AllocError>
    ensures { IfOk result (λ v. misfits_of v.items ≡ specs.without_fractions (misfits_of found.entry.items)) }
{
    let mut others = Vec::new(alloc);
    for misfit in found {
        if !is_fraction(misfit.cause) {
            others.push(misfit)?;
        }
    }
    Ok(others)
}

/// The places of a tree that do not fit a kind, each with the cause, and its fractions. Fails where memory runs out.
///
/// There are none exactly where the tree reads as a document of the kind. Each place is looked at once, whatever the alternatives of
/// a choice, and once more for fractions where there are any.
pub fn misfits<'a>(alloc: Global, kind: Kind, tree: &'a Value) -> Result<Report<'a>, AllocError>
    ensures found { IfOk result (λ r. misfits_of r.misfits.items
        ≡ misfits_and_fractions (kind_of kind) (view tree.now)) }
    ensures exact { IfOk result (λ r. (r.misfits.items ≡ [])
        ↔ ((doc : Doc) × ReadsAs (kind_of kind) (view tree.now) doc)) }
    ensures sound { IfOk result (λ r. AllTrue (kind_of kind) (view tree.now) (misfits_of r.misfits.items)) }
{
    let mut visits = 0;
    let found = walk(alloc, Target::Document(kind), tree, &mut visits)?;
    if !has_fraction(tree) {
        return Ok(Report { misfits: found });
    }
    let mut misfits = without_fractions(alloc, found)?;
    let mut fractions = walk(alloc, Target::NoFraction, tree, &mut visits)?;
    misfits.append(&mut fractions)?;
    Ok(Report { misfits })
}
