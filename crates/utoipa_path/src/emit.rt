//! Sending operations, path items and callbacks, which hold each other: members in the order of their names.
ghost use Rattle.std.specs.Prelude.{IfOk};
ghost use Rattle.utoipa_base.specs.InOrder.{row_members};
ghost use Rattle.utoipa_base.specs.Kinds.{named, path_item_object, operation_object};
ghost use Rattle.utoipa_base.specs.Pending.{pending_view};
ghost use Rattle.utoipa_base.specs.SentAmong.{SentAmong};
ghost use Rattle.utoipa_path.specs.Docs.{operation_doc, path_item_doc};
ghost use Rattle.utoipa_path.specs.ItemMembers.{up_to_get_rows, up_to_get_docs};
ghost use Rattle.utoipa_path.specs.ItemMembers.{head_to_post_rows, head_to_post_docs, from_put_rows, from_put_docs};
ghost use Rattle.utoipa_path.specs.declared.types.PathItem.{out-PathItem};

use crate::rows::{operation_rows_after_callbacks, operation_rows_last};
use crate::types::{Operation, PathItem};
use std::alloc::AllocError;
use utoipa_base::{
    Documented, Emit, EmitRows, JsonSink, PendingExtensions, emit_defaulted, emit_optional,
    row_names, row_values,
};

impl Documented for Operation {
    ghost kind = { named operation_object };

    ghost doc = { operation_doc };
}

/// An operation, as its table.
impl Emit for Operation {
    #[cycle(emit)]
    fn emit<S: JsonSink>(&self, out: &mut S) -> Result<(), AllocError> {
        let middle = operation_rows_after_callbacks!(row_values!(self));
        let middle_names = operation_rows_after_callbacks!(row_names!());
        let last = operation_rows_last!(row_values!(self));
        let last_names = operation_rows_last!(row_names!());
        out.begin_object()?;
        let pending = PendingExtensions::of(&self.extensions);
        let after_callbacks = emit_defaulted(out, "callbacks", &self.callbacks, pending)?;
        let after_middle = middle.emit(out, middle_names, after_callbacks)?;
        let after_last = last.emit(out, last_names, after_middle)?;
        after_last.emit_end(out)
    }
}

// Sends the members of a path item from `$ref` to `get`. Fails where the sink does.
#[cycle(emit)]
fn emit_item_up_to_get<'a, S: JsonSink>(
    item: &PathItem,
    out: &mut S,
    pending: PendingExtensions<'a>,
) -> Result<PendingExtensions<'a>, AllocError>
    ensures { IfOk result (λ left. SentAmong S.adds
        (row_members (up_to_get_docs operation_doc (out-PathItem item.now)) up_to_get_rows)
        (pending_view pending.entry) (pending_view left) out.old out.new) }
{
    let after_reference = emit_optional(out, "$ref", &item.ref_path, pending)?;
    let after_additional = emit_defaulted(
        out,
        "additionalOperations",
        &item.additional_operations,
        after_reference,
    )?;
    let after_delete = emit_optional(out, "delete", &item.delete, after_additional)?;
    let after_description = emit_optional(out, "description", &item.description, after_delete)?;
    emit_optional(out, "get", &item.get, after_description)
}

// Sends the members of a path item from `head` to `post`. Fails where the sink does.
#[cycle(emit)]
fn emit_item_head_to_post<'a, S: JsonSink>(
    item: &PathItem,
    out: &mut S,
    pending: PendingExtensions<'a>,
) -> Result<PendingExtensions<'a>, AllocError>
    ensures { IfOk result (λ left. SentAmong S.adds
        (row_members (head_to_post_docs operation_doc (out-PathItem item.now)) head_to_post_rows)
        (pending_view pending.entry) (pending_view left) out.old out.new) }
{
    let after_head = emit_optional(out, "head", &item.head, pending)?;
    let after_options = emit_optional(out, "options", &item.options, after_head)?;
    let after_parameters = emit_optional(out, "parameters", &item.parameters, after_options)?;
    let after_patch = emit_optional(out, "patch", &item.patch, after_parameters)?;
    emit_optional(out, "post", &item.post, after_patch)
}

// Sends the members of a path item from `put` to `trace`. Fails where the sink does.
#[cycle(emit)]
fn emit_item_from_put<'a, S: JsonSink>(
    item: &PathItem,
    out: &mut S,
    pending: PendingExtensions<'a>,
) -> Result<PendingExtensions<'a>, AllocError>
    ensures { IfOk result (λ left. SentAmong S.adds
        (row_members (from_put_docs operation_doc (out-PathItem item.now)) from_put_rows)
        (pending_view pending.entry) (pending_view left) out.old out.new) }
{
    let after_put = emit_optional(out, "put", &item.put, pending)?;
    let after_query = emit_optional(out, "query", &item.query, after_put)?;
    let after_servers = emit_optional(out, "servers", &item.servers, after_query)?;
    let after_summary = emit_optional(out, "summary", &item.summary, after_servers)?;
    emit_optional(out, "trace", &item.trace, after_summary)
}

impl Documented for PathItem {
    ghost kind = { named path_item_object };

    ghost doc = { path_item_doc };
}

/// A path item, as its table.
impl Emit for PathItem {
    #[cycle(emit)]
    fn emit<S: JsonSink>(&self, out: &mut S) -> Result<(), AllocError> {
        out.begin_object()?;
        let pending = PendingExtensions::of(&self.extensions);
        let after_get = emit_item_up_to_get(self, out, pending)?;
        let after_post = emit_item_head_to_post(self, out, after_get)?;
        let after_trace = emit_item_from_put(self, out, after_post)?;
        after_trace.emit_end(out)
    }
}
