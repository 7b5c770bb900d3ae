//! Sending schemas, which hold each other: the members of each in the order of their names.
ghost use Rattle.std.specs.Prelude.{IfOk, codes};
ghost use Rattle.utoipa_base.specs.Kinds.{schema, array_items, additional_properties, named, one_of_schema, all_of_schema, any_of_schema, array_schema, object_schema, optional};
ghost use Rattle.utoipa_base.specs.Pending.{pending_view};
ghost use Rattle.utoipa_base.specs.SentAmong.{SentAmong, row_member};
ghost use Rattle.utoipa_base.specs.Tables.{row};
ghost use Rattle.utoipa_base.specs.Views.{option_of, boxed};
ghost use Rattle.utoipa_schema.specs.Docs.{schema_doc, additional_properties_doc, array_items_doc, one_of_doc, all_of_doc, any_of_doc, array_doc, object_doc};

use crate::left_out::emit_part;
use crate::types::{AdditionalProperties, AllOf, AnyOf, Array, ArrayItems, Object, OneOf, Schema};
use crate::without_schemas::array::{array_annotation_rows, array_end_rows, item_limit_rows};
use crate::without_schemas::combination::combination_rows;
use crate::without_schemas::content::text_content_rows;
use crate::without_schemas::object::{
    greatest_limit_rows, least_limit_rows, object_annotation_rows, object_end_rows,
};
use std::alloc::AllocError;
use utoipa_base::{
    Documented, Emit, EmitRows, JsonSink, PendingExtensions, emit_defaulted, emit_optional,
    emit_required, row_names, row_values,
};

impl Documented for Schema {
    ghost kind = { schema };

    ghost doc = { schema_doc };
}

/// A schema, as the table of its alternative.
impl Emit for Schema {
    #[cycle(emit)]
    fn emit<S: JsonSink>(&self, out: &mut S) -> Result<(), AllocError> {
        match self {
            Schema::Array(array) => array.emit(out),
            Schema::Object(object) => object.emit(out),
            Schema::OneOf(one_of) => one_of.emit(out),
            Schema::AllOf(all_of) => all_of.emit(out),
            Schema::AnyOf(any_of) => any_of.emit(out),
        }
    }
}

impl Documented for ArrayItems {
    ghost kind = { array_items };

    ghost doc = { array_items_doc };
}

/// A reference, a schema, or `false`.
impl Emit for ArrayItems {
    #[cycle(emit)]
    fn emit<S: JsonSink>(&self, out: &mut S) -> Result<(), AllocError> {
        match self {
            ArrayItems::RefOrSchema(place) => place.emit(out),
            ArrayItems::False => out.boolean(false),
        }
    }
}

impl Documented for AdditionalProperties<Schema> {
    ghost kind = { additional_properties };

    ghost doc = { additional_properties_doc schema_doc };
}

/// A reference, a schema, true or false.
impl Emit for AdditionalProperties<Schema> {
    fn emit<S: JsonSink>(&self, out: &mut S) -> Result<(), AllocError> {
        match self {
            AdditionalProperties::RefOr(place) => place.emit(out),
            AdditionalProperties::FreeForm(free) => out.boolean(*free),
        }
    }
}

// Sends the member `additionalProperties` of an object, unless it has none, after the extensions that come before it. A generic function
// does not reach the `emit` above, which is for one type with an argument, among functions that call each other. Fails where the sink does.
#[cycle(emit)]
fn emit_additional<'a, S: JsonSink>(
    object: &Object,
    out: &mut S,
    pending: PendingExtensions<'a>,
) -> Result<PendingExtensions<'a>, AllocError>
    ensures { IfOk result (λ left. SentAmong S.adds
        (row_member (row (codes "additionalProperties") optional additional_properties)
        (option_of (boxed (additional_properties_doc schema_doc)) object.now.additional_properties))
        (pending_view pending.entry) (pending_view left) out.old out.new) }
{
    match &object.additional_properties {
        Some(additional) => {
            let later = pending.emit_key(out, "additionalProperties")?;
            match &**additional {
                AdditionalProperties::RefOr(place) => {
                    place.emit(out)?;
                    Ok(later)
                }
                AdditionalProperties::FreeForm(free) => {
                    out.boolean(*free)?;
                    Ok(later)
                }
            }
        }
        None => Ok(pending),
    }
}

impl Documented for OneOf {
    ghost kind = { named one_of_schema };

    ghost doc = { one_of_doc };
}

/// A schema with `oneOf`.
impl Emit for OneOf {
    #[cycle(emit)]
    fn emit<S: JsonSink>(&self, out: &mut S) -> Result<(), AllocError> {
        let first = combination_rows!(row_values!(self));
        let first_names = combination_rows!(row_names!());
        out.begin_object()?;
        let pending = PendingExtensions::of(&self.extensions);
        let after_first = first.emit(out, first_names, pending)?;
        let after_items = emit_required(out, "oneOf", &self.items, after_first)?;
        let after_read_only = emit_optional(out, "readOnly", &self.read_only, after_items)?;
        let after_title = emit_optional(out, "title", &self.title, after_read_only)?;
        let after_type = emit_defaulted(out, "type", &self.schema_type, after_title)?;
        let after_last = emit_optional(out, "writeOnly", &self.write_only, after_type)?;
        after_last.emit_end(out)
    }
}

impl Documented for AllOf {
    ghost kind = { named all_of_schema };

    ghost doc = { all_of_doc };
}

/// A schema with `allOf`.
impl Emit for AllOf {
    #[cycle(emit)]
    fn emit<S: JsonSink>(&self, out: &mut S) -> Result<(), AllocError> {
        let shared = combination_rows!(row_values!(self));
        let shared_names = combination_rows!(row_names!());
        out.begin_object()?;
        let pending = PendingExtensions::of(&self.extensions);
        let after_items = emit_required(out, "allOf", &self.items, pending)?;
        let after_shared = shared.emit(out, shared_names, after_items)?;
        let after_title = emit_optional(out, "title", &self.title, after_shared)?;
        let after_last = emit_defaulted(out, "type", &self.schema_type, after_title)?;
        after_last.emit_end(out)
    }
}

impl Documented for AnyOf {
    ghost kind = { named any_of_schema };

    ghost doc = { any_of_doc };
}

/// A schema with `anyOf`.
impl Emit for AnyOf {
    #[cycle(emit)]
    fn emit<S: JsonSink>(&self, out: &mut S) -> Result<(), AllocError> {
        let shared = combination_rows!(row_values!(self));
        let shared_names = combination_rows!(row_names!());
        out.begin_object()?;
        let pending = PendingExtensions::of(&self.extensions);
        let after_items = emit_required(out, "anyOf", &self.items, pending)?;
        let after_shared = shared.emit(out, shared_names, after_items)?;
        let after_last = emit_defaulted(out, "type", &self.schema_type, after_shared)?;
        after_last.emit_end(out)
    }
}

impl Documented for Array {
    ghost kind = { named array_schema };

    ghost doc = { array_doc };
}

/// A schema with `items`.
impl Emit for Array {
    #[cycle(emit)]
    fn emit<S: JsonSink>(&self, out: &mut S) -> Result<(), AllocError> {
        let content = text_content_rows!(row_values!(self));
        let content_names = text_content_rows!(row_names!());
        let annotations = array_annotation_rows!(row_values!(self));
        let annotation_names = array_annotation_rows!(row_names!());
        let limits = item_limit_rows!(row_values!(self));
        let limit_names = item_limit_rows!(row_names!());
        let last = array_end_rows!(row_values!(self));
        let last_names = array_end_rows!(row_names!());
        out.begin_object()?;
        let pending = PendingExtensions::of(&self.extensions);
        let after_content = emit_part(&content, out, content_names, pending)?;
        let after_schema = emit_optional(
            out,
            "contentSchema",
            &self.content_schema,
            after_content,
        )?;
        let after_annotations = emit_part(&annotations, out, annotation_names, after_schema)?;
        let after_items = emit_required(out, "items", &self.items, after_annotations)?;
        let after_limits = emit_part(&limits, out, limit_names, after_items)?;
        let after_prefix = emit_defaulted(out, "prefixItems", &self.prefix_items, after_limits)?;
        let after_last = last.emit(out, last_names, after_prefix)?;
        after_last.emit_end(out)
    }
}

impl Documented for Object {
    ghost kind = { named object_schema };

    ghost doc = { object_doc };
}

/// A schema of any other type.
impl Emit for Object {
    #[cycle(emit)]
    fn emit<S: JsonSink>(&self, out: &mut S) -> Result<(), AllocError> {
        let content = text_content_rows!(row_values!(self));
        let content_names = text_content_rows!(row_names!());
        let annotations = object_annotation_rows!(row_values!(self));
        let annotation_names = object_annotation_rows!(row_names!());
        let greatest = greatest_limit_rows!(row_values!(self));
        let greatest_names = greatest_limit_rows!(row_names!());
        let least = least_limit_rows!(row_values!(self));
        let least_names = least_limit_rows!(row_names!());
        let last = object_end_rows!(row_values!(self));
        let last_names = object_end_rows!(row_names!());
        out.begin_object()?;
        let pending = PendingExtensions::of(&self.extensions);
        let after_additional = emit_additional(self, out, pending)?;
        let after_content = emit_part(&content, out, content_names, after_additional)?;
        let after_schema = emit_optional(
            out,
            "contentSchema",
            &self.content_schema,
            after_content,
        )?;
        let after_annotations = emit_part(&annotations, out, annotation_names, after_schema)?;
        let after_greatest = emit_part(&greatest, out, greatest_names, after_annotations)?;
        let after_least = emit_part(&least, out, least_names, after_greatest)?;
        let after_properties = emit_defaulted(out, "properties", &self.properties, after_least)?;
        let after_property_names = emit_optional(
            out,
            "propertyNames",
            &self.property_names,
            after_properties,
        )?;
        let after_last = emit_part(&last, out, last_names, after_property_names)?;
        after_last.emit_end(out)
    }
}
