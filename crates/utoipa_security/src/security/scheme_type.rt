//! The member whose word says of which type a scheme is: `type`, and `in` of an API key.
ghost use Rattle.std.specs.Prelude.{◌≡◌, None, Some, option_and_then, IfOk, IfErr};
ghost use Rattle.serde_json.specs.Data.{string};
ghost use Rattle.serde_json.specs.Find.{get, as_str};
ghost use Rattle.serde_json.specs.View.{view};
ghost use Rattle.utoipa_base.specs.Docs.{text_doc};
ghost use Rattle.utoipa_base.specs.Faults.{Refuses};
ghost use Rattle.utoipa_base.specs.Kinds.{required, text};
ghost use Rattle.utoipa_base.specs.Tables.{row};

use serde_json::Value;
use std::alloc::AllocError;
use utoipa_base::{EmitRow, JsonSink, PendingExtensions, ReadFault};

/// The text of a member.
///
/// Answers `Kind` with the name of the type where the tree is no object or the member is no text, and `Missing` where
/// there is no such member.
#[tactic(auto, using(crate::proofs::SchemeTypes::by_scheme_types))]
pub(crate) fn read_type<'a>(
    tree: &'a Value,
    name: &'static str,
    wanted: &'static str,
) -> Result<&'a str, ReadFault>
    ensures ok { IfOk result (λ s. option_and_then as_str (get name.now (view tree.now)) ≡ Some s.now) }
    ensures none { IfErr result (λ e. option_and_then as_str (get name.now (view tree.now)) ≡ None) }
    ensures err { IfErr result (Refuses None) }
{
    if !tree.is_object() {
        return Err(ReadFault::Kind(wanted));
    }
    match tree.get(name) {
        Some(member) => member.as_str().ok_or(ReadFault::Kind(wanted)),
        None => Err(ReadFault::Missing(name)),
    }
}

/// The word of such a member, to be sent as a row beside those of the scheme.
#[derive(Clone, Copy)]
pub(crate) struct TypeValue<'a>(pub(crate) &'a str);

impl<'v> EmitRow for TypeValue<'v> {
    ghost line = { λ name. row name required text };

    ghost doc = { λ v. text_doc v.0.now };

    fn emit<'a, S: JsonSink>(
        &self,
        out: &mut S,
        name: &str,
        pending: PendingExtensions<'a>,
    ) -> Result<PendingExtensions<'a>, AllocError> {
        let later = pending.emit_key(out, name)?;
        out.string(self.0)?;
        Ok(later)
    }
}
