//! Schemas with `oneOf`.
ghost use Rattle.std.specs.Prelude.{◌≡◌, ◌++◌, ◌∷◌, [], Some, IfOk, vec_capacity};
ghost use Rattle.std.specs.Iterator.{IsFinite};
ghost use Rattle.utoipa_base.specs.Lists.{EachIterator, IsFilledFrom};
ghost use Rattle.utoipa_schema.specs.Builders.{built_one_of, built_array, one_of_place, one_array, IsEmptyOneOf, IsArrayOf, Items, Values};

use crate::array::ArrayBuilder;
use crate::lists::push_one;
use crate::types::{OneOf, Schema};
use serde_json::Value;
use std::alloc::{AllocError, Global};
use utoipa_base::{Extensions, RefOr, list_from, set};
use utoipa_schema_parts::{Discriminator, SchemaType};

impl OneOf {
    /// A combination of no schema, of which nothing else is said. Takes no memory.
    pub fn new(alloc: Global) -> OneOf
        ensures { IsEmptyOneOf result }
    {
        one_of_with(alloc, Vec::new(alloc))
    }

    /// A combination of no schema, of which nothing else is said, with room for as many schemas. Fails where memory
    /// runs out.
    pub fn with_capacity(alloc: Global, capacity: usize) -> Result<OneOf, AllocError>
        ensures empty { IfOk result (λ combination. IsEmptyOneOf combination) }
        ensures room { IfOk result (λ combination. vec_capacity combination.items ≡ capacity) }
    {
        Ok(one_of_with(alloc, Vec::with_capacity(alloc, capacity)?))
    }

    /// A builder that begins with a combination of no schema, of which nothing else is said. Takes no memory.
    pub fn builder(alloc: Global) -> OneOfBuilder
        ensures { IsEmptyOneOf (built_one_of result) }
    {
        OneOfBuilder::new(alloc)
    }
}

/// A combination of the schemas, of which nothing else is said.
fn one_of_with(alloc: Global, items: Vec<RefOr<Schema>>) -> OneOf
    requires { items.items ≡ [] }
    ensures empty { IsEmptyOneOf result }
    ensures items { result.items ≡ items }
{
    OneOf {
        items,
        schema_type: SchemaType::AnyValue,
        title: None,
        description: None,
        default: None,
        example: None,
        examples: Vec::new(alloc),
        discriminator: None,
        read_only: None,
        write_only: None,
        extensions: None,
    }
}

/// Builds a [`OneOf`].
#[derive(Debug, Drop)]
pub struct OneOfBuilder {
    one_of: OneOf,
}

impl OneOfBuilder {
    /// Begins with a combination of no schema, of which nothing else is said. Takes no memory.
    pub fn new(alloc: Global) -> OneOfBuilder
        ensures { IsEmptyOneOf (built_one_of result) }
    {
        OneOfBuilder {
            one_of: OneOf::new(alloc),
        }
    }

    /// Adds a schema after those that were added.
    ///
    /// Fails where memory runs out, and then gives up what was built.
    pub fn item(mut self, item: RefOr<Schema>) -> Result<OneOfBuilder, AllocError>
        ensures { IfOk result (λ b. (listed : Items) × (listed.items ≡ (built_one_of self).items.items ++ item ∷ [])
            × (built_one_of b ≡ record (built_one_of self) { items = listed })) }
    {
        push_one(&mut self.one_of.items, item).and(Ok(self))
    }

    /// Sets the types of the value.
    pub fn schema_type(mut self, schema_type: SchemaType) -> OneOfBuilder
        ensures { built_one_of result ≡ record (built_one_of self) { schema_type = schema_type } }
    {
        self.one_of.schema_type = schema_type;
        self
    }

    /// Sets the title.
    pub fn title(mut self, title: Option<String>) -> OneOfBuilder
        ensures { built_one_of result ≡ record (built_one_of self) { title = title } }
    {
        self.one_of.title = title;
        self
    }

    /// Sets the description.
    pub fn description(mut self, description: Option<String>) -> OneOfBuilder
        ensures { built_one_of result ≡ record (built_one_of self) { description = description } }
    {
        self.one_of.description = description;
        self
    }

    /// Sets the value that is taken where there is none.
    pub fn default(mut self, default: Option<Value>) -> OneOfBuilder
        ensures { built_one_of result ≡ record (built_one_of self) { default = default } }
    {
        self.one_of.default = default;
        self
    }

    /// Sets the example, in place of which `examples` is recommended.
    pub fn example(mut self, example: Option<Value>) -> OneOfBuilder
        ensures { built_one_of result ≡ record (built_one_of self) { example = example } }
    {
        self.one_of.example = example;
        self
    }

    /// Sets the examples of the value. The iterator has to end.
    ///
    /// Fails where memory runs out, and then gives up what was built.
    pub fn examples<I: IntoIterator<Item = Value>>(
        mut self,
        alloc: Global,
        examples: I,
    ) -> Result<OneOfBuilder, AllocError>
        requires can { EachIterator I.into_iter_gives I.IntoIter.can_next examples }
        requires ends { EachIterator I.into_iter_gives (λ it. IsFinite (I.IntoIter.remaining it)) examples }
        ensures { IfOk result (λ b. (listed : Values)
            × IsFilledFrom I.into_iter_gives I.IntoIter.next_gives examples listed
            × (built_one_of b ≡ record (built_one_of self) { examples = listed })) }
    {
        let examples = list_from(alloc, examples);
        set(&mut self.one_of.examples, examples).and(Ok(self))
    }

    /// Sets the property that tells which of the schemas a value is of.
    pub fn discriminator(mut self, discriminator: Option<Discriminator>) -> OneOfBuilder
        ensures { built_one_of result ≡ record (built_one_of self) { discriminator = discriminator } }
    {
        self.one_of.discriminator = discriminator;
        self
    }

    /// Sets whether the value is only sent by the server.
    pub fn read_only(mut self, read_only: bool) -> OneOfBuilder
        ensures { built_one_of result ≡ record (built_one_of self) { read_only = Some read_only } }
    {
        self.one_of.read_only = Some(read_only);
        self
    }

    /// Sets whether the value is only sent to the server.
    pub fn write_only(mut self, write_only: bool) -> OneOfBuilder
        ensures { built_one_of result ≡ record (built_one_of self) { write_only = Some write_only } }
    {
        self.one_of.write_only = Some(write_only);
        self
    }

    /// Sets the specification extensions.
    pub fn extensions(mut self, extensions: Option<Extensions>) -> OneOfBuilder
        ensures { built_one_of result ≡ record (built_one_of self) { extensions = extensions } }
    {
        self.one_of.extensions = extensions;
        self
    }

    /// The schema that was built.
    pub fn build(self) -> OneOf
        ensures { result ≡ built_one_of self }
    {
        self.one_of
    }

    /// A builder that begins with an array whose items are what was built.
    ///
    /// Fails where memory runs out, and then gives up what was built.
    pub fn to_array_builder(self, alloc: Global) -> Result<ArrayBuilder, AllocError>
        ensures { IfOk result (λ b. IsArrayOf one_array (one_of_place (built_one_of self)) (built_array b)) }
    {
        ArrayBuilder::of_items(alloc, RefOr::T(Schema::OneOf(self.one_of)))
    }
}

impl From<OneOf> for OneOfBuilder {
    ghost use Rattle.utoipa_schema.specs.Builders.{built_one_of};

    ghost from_gives = { λ one_of builder. built_one_of builder ≡ one_of };

    fn from(one_of: OneOf) -> OneOfBuilder {
        OneOfBuilder { one_of }
    }
}

impl From<OneOfBuilder> for OneOf {
    ghost use Rattle.utoipa_schema.specs.Builders.{built_one_of};

    ghost from_gives = { λ builder one_of. one_of ≡ built_one_of builder };

    fn from(builder: OneOfBuilder) -> OneOf {
        builder.build()
    }
}
