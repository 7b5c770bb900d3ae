//! Which schemas come back from what they are written as.
ghost use Rattle.utoipa_schema.specs.OfKind.{schema_of_kind, array_items_of_kind, additional_properties_of_kind, one_of_of_kind, all_of_of_kind, any_of_of_kind, array_of_kind, object_of_kind};
ghost use Rattle.std.specs.Prelude.{◌≡◌};
ghost use Rattle.utoipa_base.specs.Views.{option_of, boxed};
ghost use Rattle.utoipa_schema.specs.Docs.{schema_doc, additional_properties_doc};
ghost use Rattle.utoipa_base.specs.Unambiguous.{is_unambiguous};

use crate::{AdditionalProperties, AllOf, AnyOf, Array, ArrayItems, Object, OneOf, Schema};
use utoipa_base::{
    NoReference, Unambiguous, boxed_is_unambiguous, extensions_are_unambiguous,
    option_is_unambiguous,
};

/// A schema, as the table of its alternative.
#[tactic(auto, using(utoipa_schema_parts::proofs::UnambiguousFields::by_schema_fields))]
impl Unambiguous for Schema {
    ghost of_kind = { schema_of_kind };

    #[cycle(schemas)]
    fn is_unambiguous(&self) -> bool {
        match self {
            Schema::Array(array) => array.is_unambiguous(),
            Schema::Object(object) => object.is_unambiguous(),
            Schema::OneOf(one_of) => one_of.is_unambiguous(),
            Schema::AllOf(all_of) => all_of.is_unambiguous(),
            Schema::AnyOf(any_of) => any_of.is_unambiguous(),
        }
    }
}

/// No table of a schema has a member `$ref`.
impl NoReference for Schema {
    fn is_no_reference(&self) -> bool {
        match self {
            Schema::Array(_) => true,
            Schema::Object(_) => true,
            Schema::OneOf(_) => true,
            Schema::AllOf(_) => true,
            Schema::AnyOf(_) => true,
        }
    }
}

/// A reference, a schema, or `false`.
#[tactic(auto, using(utoipa_schema_parts::proofs::UnambiguousFields::by_schema_fields))]
impl Unambiguous for ArrayItems {
    ghost of_kind = { array_items_of_kind };

    #[cycle(schemas)]
    fn is_unambiguous(&self) -> bool {
        match self {
            ArrayItems::RefOrSchema(place) => place.is_unambiguous(),
            ArrayItems::False => true,
        }
    }
}

/// A reference, a schema, true or false.
#[tactic(auto, using(utoipa_schema_parts::proofs::UnambiguousFields::by_schema_fields))]
impl Unambiguous for AdditionalProperties<Schema> {
    ghost of_kind = { additional_properties_of_kind };

    fn is_unambiguous(&self) -> bool {
        match self {
            AdditionalProperties::RefOr(place) => place.is_unambiguous(),
            AdditionalProperties::FreeForm(_) => true,
        }
    }
}

/// A schema with `oneOf`.
#[tactic(auto, using(utoipa_schema_parts::proofs::UnambiguousFields::by_schema_fields))]
impl Unambiguous for OneOf {
    ghost of_kind = { one_of_of_kind };

    #[cycle(schemas)]
    fn is_unambiguous(&self) -> bool {
        self.items.is_unambiguous()
            && option_is_unambiguous(&self.discriminator)
            && extensions_are_unambiguous(&self.extensions)
    }
}

/// A schema with `allOf`.
#[tactic(auto, using(utoipa_schema_parts::proofs::UnambiguousFields::by_schema_fields))]
impl Unambiguous for AllOf {
    ghost of_kind = { all_of_of_kind };

    #[cycle(schemas)]
    fn is_unambiguous(&self) -> bool {
        self.items.is_unambiguous()
            && option_is_unambiguous(&self.discriminator)
            && extensions_are_unambiguous(&self.extensions)
    }
}

/// A schema with `anyOf`.
#[tactic(auto, using(utoipa_schema_parts::proofs::UnambiguousFields::by_schema_fields))]
impl Unambiguous for AnyOf {
    ghost of_kind = { any_of_of_kind };

    #[cycle(schemas)]
    fn is_unambiguous(&self) -> bool {
        self.items.is_unambiguous()
            && option_is_unambiguous(&self.discriminator)
            && extensions_are_unambiguous(&self.extensions)
    }
}

// Whether the member `additionalProperties` of an object is unambiguous, or absent.
#[cycle(schemas)]
fn additional_passes(object: &Object) -> bool
    ensures { result ≡ is_unambiguous (option_of (boxed (additional_properties_doc schema_doc)) object.now.additional_properties) }
{
    match &object.additional_properties {
        Some(additional) => match &**additional {
            AdditionalProperties::RefOr(place) => place.is_unambiguous(),
            AdditionalProperties::FreeForm(_) => true,
        },
        None => true,
    }
}

/// A schema of an array.
#[tactic(auto, using(crate::proofs::UnambiguousSchemas::by_schemas))]
impl Unambiguous for Array {
    ghost of_kind = { array_of_kind };

    #[cycle(schemas)]
    fn is_unambiguous(&self) -> bool {
        boxed_is_unambiguous(&self.content_schema)
            && self.items.is_unambiguous()
            && self.prefix_items.is_unambiguous()
            && extensions_are_unambiguous(&self.extensions)
    }
}

/// A schema of an object, or of any value.
#[tactic(auto, using(crate::proofs::UnambiguousSchemas::by_schemas))]
impl Unambiguous for Object {
    ghost of_kind = { object_of_kind };

    #[cycle(schemas)]
    fn is_unambiguous(&self) -> bool {
        additional_passes(self)
            && boxed_is_unambiguous(&self.content_schema)
            && self.properties.is_unambiguous()
            && boxed_is_unambiguous(&self.property_names)
            && extensions_are_unambiguous(&self.extensions)
    }
}
