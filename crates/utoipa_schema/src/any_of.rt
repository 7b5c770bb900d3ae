//! Schemas with `anyOf`.
ghost use Rattle.std.specs.Prelude.{◌≡◌, ◌++◌, ◌∷◌, [], IfOk, vec_capacity};
ghost use Rattle.std.specs.Iterator.{IsFinite};
ghost use Rattle.utoipa_base.specs.Lists.{EachIterator, IsFilledFrom};
ghost use Rattle.utoipa_schema.specs.Builders.{built_any_of, built_array, any_of_place, one_array, IsEmptyAnyOf, IsArrayOf, Items, Values};

use crate::array::ArrayBuilder;
use crate::lists::push_one;
use crate::types::{AnyOf, Schema};
use serde_json::Value;
use std::alloc::{AllocError, Global};
use utoipa_base::{Extensions, RefOr, list_from, set};
use utoipa_schema_parts::{Discriminator, SchemaType};

impl AnyOf {
    /// A combination of no schema, of which nothing else is said. Takes no memory.
    pub fn new(alloc: Global) -> AnyOf
        ensures { IsEmptyAnyOf result }
    {
        any_of_with(alloc, Vec::new(alloc))
    }

    /// A combination of no schema, of which nothing else is said, with room for as many schemas. Fails where memory
    /// runs out.
    pub fn with_capacity(alloc: Global, capacity: usize) -> Result<AnyOf, AllocError>
        ensures empty { IfOk result (λ combination. IsEmptyAnyOf combination) }
        ensures room { IfOk result (λ combination. vec_capacity combination.items ≡ capacity) }
    {
        Ok(any_of_with(alloc, Vec::with_capacity(alloc, capacity)?))
    }

    /// A builder that begins with a combination of no schema, of which nothing else is said. Takes no memory.
    pub fn builder(alloc: Global) -> AnyOfBuilder
        ensures { IsEmptyAnyOf (built_any_of result) }
    {
        AnyOfBuilder::new(alloc)
    }
}

/// A combination of the schemas, of which nothing else is said.
fn any_of_with(alloc: Global, items: Vec<RefOr<Schema>>) -> AnyOf
    requires { items.items ≡ [] }
    ensures empty { IsEmptyAnyOf result }
    ensures items { result.items ≡ items }
{
    AnyOf {
        items,
        schema_type: SchemaType::AnyValue,
        description: None,
        default: None,
        example: None,
        examples: Vec::new(alloc),
        discriminator: None,
        extensions: None,
    }
}

/// Builds an [`AnyOf`].
#[derive(Debug, Drop)]
pub struct AnyOfBuilder {
    any_of: AnyOf,
}

impl AnyOfBuilder {
    /// Begins with a combination of no schema, of which nothing else is said. Takes no memory.
    pub fn new(alloc: Global) -> AnyOfBuilder
        ensures { IsEmptyAnyOf (built_any_of result) }
    {
        AnyOfBuilder {
            any_of: AnyOf::new(alloc),
        }
    }

    /// Adds a schema after those that were added.
    ///
    /// Fails where memory runs out, and then gives up what was built.
    pub fn item(mut self, item: RefOr<Schema>) -> Result<AnyOfBuilder, AllocError>
        ensures { IfOk result (λ b. (listed : Items) × (listed.items ≡ (built_any_of self).items.items ++ item ∷ [])
            × (built_any_of b ≡ record (built_any_of self) { items = listed })) }
    {
        push_one(&mut self.any_of.items, item).and(Ok(self))
    }

    /// Sets the types of the value.
    pub fn schema_type(mut self, schema_type: SchemaType) -> AnyOfBuilder
        ensures { built_any_of result ≡ record (built_any_of self) { schema_type = schema_type } }
    {
        self.any_of.schema_type = schema_type;
        self
    }

    /// Sets the description.
    pub fn description(mut self, description: Option<String>) -> AnyOfBuilder
        ensures { built_any_of result ≡ record (built_any_of self) { description = description } }
    {
        self.any_of.description = description;
        self
    }

    /// Sets the value that is taken where there is none.
    pub fn default(mut self, default: Option<Value>) -> AnyOfBuilder
        ensures { built_any_of result ≡ record (built_any_of self) { default = default } }
    {
        self.any_of.default = default;
        self
    }

    /// Sets the example, in place of which `examples` is recommended.
    pub fn example(mut self, example: Option<Value>) -> AnyOfBuilder
        ensures { built_any_of result ≡ record (built_any_of self) { example = example } }
    {
        self.any_of.example = example;
        self
    }

    /// Sets the examples of the value. The iterator has to end.
    ///
    /// Fails where memory runs out, and then gives up what was built.
    pub fn examples<I: IntoIterator<Item = Value>>(
        mut self,
        alloc: Global,
        examples: I,
    ) -> Result<AnyOfBuilder, AllocError>
        requires can { EachIterator I.into_iter_gives I.IntoIter.can_next examples }
        requires ends { EachIterator I.into_iter_gives (λ it. IsFinite (I.IntoIter.remaining it)) examples }
        ensures { IfOk result (λ b. (listed : Values)
            × IsFilledFrom I.into_iter_gives I.IntoIter.next_gives examples listed
            × (built_any_of b ≡ record (built_any_of self) { examples = listed })) }
    {
        let examples = list_from(alloc, examples);
        set(&mut self.any_of.examples, examples).and(Ok(self))
    }

    /// Sets the property that tells which of the schemas a value is of.
    pub fn discriminator(mut self, discriminator: Option<Discriminator>) -> AnyOfBuilder
        ensures { built_any_of result ≡ record (built_any_of self) { discriminator = discriminator } }
    {
        self.any_of.discriminator = discriminator;
        self
    }

    /// Sets the specification extensions.
    pub fn extensions(mut self, extensions: Option<Extensions>) -> AnyOfBuilder
        ensures { built_any_of result ≡ record (built_any_of self) { extensions = extensions } }
    {
        self.any_of.extensions = extensions;
        self
    }

    /// The schema that was built.
    pub fn build(self) -> AnyOf
        ensures { result ≡ built_any_of self }
    {
        self.any_of
    }

    /// A builder that begins with an array whose items are what was built.
    ///
    /// Fails where memory runs out, and then gives up what was built.
    pub fn to_array_builder(self, alloc: Global) -> Result<ArrayBuilder, AllocError>
        ensures { IfOk result (λ b. IsArrayOf one_array (any_of_place (built_any_of self)) (built_array b)) }
    {
        ArrayBuilder::of_items(alloc, RefOr::T(Schema::AnyOf(self.any_of)))
    }
}

impl From<AnyOf> for AnyOfBuilder {
    ghost use Rattle.utoipa_schema.specs.Builders.{built_any_of};

    ghost from_gives = { λ any_of builder. built_any_of builder ≡ any_of };

    fn from(any_of: AnyOf) -> AnyOfBuilder {
        AnyOfBuilder { any_of }
    }
}

impl From<AnyOfBuilder> for AnyOf {
    ghost use Rattle.utoipa_schema.specs.Builders.{built_any_of};

    ghost from_gives = { λ builder any_of. any_of ≡ built_any_of builder };

    fn from(builder: AnyOfBuilder) -> AnyOf {
        builder.build()
    }
}
