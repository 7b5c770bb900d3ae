//! What does not fit in a tree, of what was found inside it.
ghost use Rattle.std.specs.Prelude.{◌≡◌, IfOk, false};
ghost use Rattle.serde_json.specs.View.{view};
ghost use Rattle.utoipa_check.specs.Misfits as specs;
ghost use Rattle.utoipa_check.specs.Places.{outcomes, inner_places, found, array_places, item_target, items_at, of_kind, no_fraction};
ghost use Rattle.utoipa_check.specs.Views.{misfits_of, stacked, target_of, is_reference};
ghost use Rattle.utoipa_tables.specs.Tables.{kind_of};

use crate::layout::Target;
use crate::leaf::{
    boolean_fits, expect, expect_of, null_fits, number_fits, own_kind, text_misfits,
};
use crate::misfit::{Cause, Misfit, Outcome, here, join_all};
use crate::object::object_misfits;
use crate::schema::any_flow_misfits;
use serde_json::Value;
use std::alloc::{AllocError, Global};
use utoipa_tables::Kind;

/// What does not fit in an array of a kind. Fails where memory runs out.
fn array_misfits<'a>(
    alloc: Global,
    kind: Kind,
    tree: &'a Value,
    inner: Vec<Outcome<'a>>,
) -> Result<Vec<Misfit<'a>>, AllocError>
    requires own { is_reference (kind_of kind) ≡ false }
    requires inner { stacked inner.items
        ≡ outcomes (array_places (item_target (of_kind (kind_of kind))) (items_at (view tree.now))) }
    ensures { IfOk result
        (λ v. misfits_of v.items
        ≡ specs.array_misfits (specs.item_checkers (items_at (view tree.now))) (kind_of kind)) }
{
    match kind {
        Kind::Any => Ok(Vec::new(alloc)),
        Kind::ListOf(_) | Kind::SchemaType => join_all(alloc, inner),
        _ => here(alloc, Cause::Expected(kind)),
    }
}

/// What does not fit in a tree of a kind. Fails where memory runs out.
fn document_misfits<'a>(
    alloc: Global,
    kind: Kind,
    tree: &'a Value,
    inner: Vec<Outcome<'a>>,
) -> Result<Vec<Misfit<'a>>, AllocError>
    requires { stacked inner.items ≡ outcomes (inner_places (of_kind (kind_of kind)) (view tree.now)) }
    ensures { IfOk result (λ v. misfits_of v.items ≡ specs.misfits (kind_of kind) (view tree.now)) }
{
    let own = own_kind(kind);
    match tree {
        Value::Null => expect(alloc, null_fits(own), own),
        Value::Bool(flag) => expect(alloc, boolean_fits(*flag, own), own),
        Value::Number(number) => expect_of(alloc, number_fits(number, own), own, tree),
        Value::String(text) => text_misfits(alloc, own, text.as_str()),
        Value::Array(_) => array_misfits(alloc, own, tree, inner),
        Value::Object(_) => object_misfits(alloc, kind, tree, inner),
    }
}

/// The fractions of a tree. Fails where memory runs out.
fn fractions<'a>(
    alloc: Global,
    tree: &'a Value,
    inner: Vec<Outcome<'a>>,
) -> Result<Vec<Misfit<'a>>, AllocError>
    requires { stacked inner.items ≡ outcomes (inner_places no_fraction (view tree.now)) }
    ensures { IfOk result (λ v. misfits_of v.items ≡ specs.fractions (view tree.now)) }
{
    if tree.is_f64() {
        return here(alloc, Cause::Fraction);
    }
    join_all(alloc, inner)
}

/// What does not fit in a tree. Fails where memory runs out.
pub(crate) fn misfits_from<'a>(
    alloc: Global,
    target: Target,
    tree: &'a Value,
    inner: Vec<Outcome<'a>>,
) -> Result<Vec<Misfit<'a>>, AllocError>
    requires { stacked inner.items ≡ outcomes (inner_places (target_of target) (view tree.now)) }
    ensures { IfOk result (λ v. misfits_of v.items ≡ found (target_of target) (view tree.now)) }
{
    match target {
        Target::Document(kind) => document_misfits(alloc, kind, tree, inner),
        Target::AnyFlow => any_flow_misfits(alloc, tree, inner),
        Target::NoFraction => fractions(alloc, tree, inner),
    }
}
