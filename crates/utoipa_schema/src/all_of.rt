//! Schemas with `allOf`.
ghost use Rattle.std.specs.Prelude.{◌≡◌, ◌++◌, ◌∷◌, [], IfOk, vec_capacity};
ghost use Rattle.std.specs.Iterator.{IsFinite};
ghost use Rattle.utoipa_base.specs.Lists.{EachIterator, IsFilledFrom};
ghost use Rattle.utoipa_schema.specs.Builders.{built_all_of, built_array, all_of_place, one_array, IsEmptyAllOf, IsArrayOf, Items, Values};

use crate::array::ArrayBuilder;
use crate::lists::push_one;
use crate::types::{AllOf, Schema};
use serde_json::Value;
use std::alloc::{AllocError, Global};
use utoipa_base::{Extensions, RefOr, list_from, set};
use utoipa_schema_parts::{Discriminator, SchemaType};

impl AllOf {
    /// A combination of no schema, of which nothing else is said. Takes no memory.
    pub fn new(alloc: Global) -> AllOf
        ensures { IsEmptyAllOf result }
    {
        all_of_with(alloc, Vec::new(alloc))
    }

    /// A combination of no schema, of which nothing else is said, with room for as many schemas. Fails where memory
    /// runs out.
    pub fn with_capacity(alloc: Global, capacity: usize) -> Result<AllOf, AllocError>
        ensures empty { IfOk result (λ combination. IsEmptyAllOf combination) }
        ensures room { IfOk result (λ combination. vec_capacity combination.items ≡ capacity) }
    {
        Ok(all_of_with(alloc, Vec::with_capacity(alloc, capacity)?))
    }

    /// A builder that begins with a combination of no schema, of which nothing else is said. Takes no memory.
    pub fn builder(alloc: Global) -> AllOfBuilder
        ensures { IsEmptyAllOf (built_all_of result) }
    {
        AllOfBuilder::new(alloc)
    }
}

/// A combination of the schemas, of which nothing else is said.
fn all_of_with(alloc: Global, items: Vec<RefOr<Schema>>) -> AllOf
    requires { items.items ≡ [] }
    ensures empty { IsEmptyAllOf result }
    ensures items { result.items ≡ items }
{
    AllOf {
        items,
        schema_type: SchemaType::AnyValue,
        title: None,
        description: None,
        default: None,
        example: None,
        examples: Vec::new(alloc),
        discriminator: None,
        extensions: None,
    }
}

/// Builds a [`AllOf`].
#[derive(Debug, Drop)]
pub struct AllOfBuilder {
    all_of: AllOf,
}

impl AllOfBuilder {
    /// Begins with a combination of no schema, of which nothing else is said. Takes no memory.
    pub fn new(alloc: Global) -> AllOfBuilder
        ensures { IsEmptyAllOf (built_all_of result) }
    {
        AllOfBuilder {
            all_of: AllOf::new(alloc),
        }
    }

    /// Adds a schema after those that were added.
    ///
    /// Fails where memory runs out, and then gives up what was built.
    pub fn item(mut self, item: RefOr<Schema>) -> Result<AllOfBuilder, AllocError>
        ensures { IfOk result (λ b. (listed : Items) × (listed.items ≡ (built_all_of self).items.items ++ item ∷ [])
            × (built_all_of b ≡ record (built_all_of self) { items = listed })) }
    {
        push_one(&mut self.all_of.items, item).and(Ok(self))
    }

    /// Sets the types of the value.
    pub fn schema_type(mut self, schema_type: SchemaType) -> AllOfBuilder
        ensures { built_all_of result ≡ record (built_all_of self) { schema_type = schema_type } }
    {
        self.all_of.schema_type = schema_type;
        self
    }

    /// Sets the title.
    pub fn title(mut self, title: Option<String>) -> AllOfBuilder
        ensures { built_all_of result ≡ record (built_all_of self) { title = title } }
    {
        self.all_of.title = title;
        self
    }

    /// Sets the description.
    pub fn description(mut self, description: Option<String>) -> AllOfBuilder
        ensures { built_all_of result ≡ record (built_all_of self) { description = description } }
    {
        self.all_of.description = description;
        self
    }

    /// Sets the value that is taken where there is none.
    pub fn default(mut self, default: Option<Value>) -> AllOfBuilder
        ensures { built_all_of result ≡ record (built_all_of self) { default = default } }
    {
        self.all_of.default = default;
        self
    }

    /// Sets the example, in place of which `examples` is recommended.
    pub fn example(mut self, example: Option<Value>) -> AllOfBuilder
        ensures { built_all_of result ≡ record (built_all_of self) { example = example } }
    {
        self.all_of.example = example;
        self
    }

    /// Sets the examples of the value. The iterator has to end.
    ///
    /// Fails where memory runs out, and then gives up what was built.
    pub fn examples<I: IntoIterator<Item = Value>>(
        mut self,
        alloc: Global,
        examples: I,
    ) -> Result<AllOfBuilder, AllocError>
        requires can { EachIterator I.into_iter_gives I.IntoIter.can_next examples }
        requires ends { EachIterator I.into_iter_gives (λ it. IsFinite (I.IntoIter.remaining it)) examples }
        ensures { IfOk result (λ b. (listed : Values)
            × IsFilledFrom I.into_iter_gives I.IntoIter.next_gives examples listed
            × (built_all_of b ≡ record (built_all_of self) { examples = listed })) }
    {
        let examples = list_from(alloc, examples);
        set(&mut self.all_of.examples, examples).and(Ok(self))
    }

    /// Sets the property that tells which of the schemas a value is of.
    pub fn discriminator(mut self, discriminator: Option<Discriminator>) -> AllOfBuilder
        ensures { built_all_of result ≡ record (built_all_of self) { discriminator = discriminator } }
    {
        self.all_of.discriminator = discriminator;
        self
    }

    /// Sets the specification extensions.
    pub fn extensions(mut self, extensions: Option<Extensions>) -> AllOfBuilder
        ensures { built_all_of result ≡ record (built_all_of self) { extensions = extensions } }
    {
        self.all_of.extensions = extensions;
        self
    }

    /// The schema that was built.
    pub fn build(self) -> AllOf
        ensures { result ≡ built_all_of self }
    {
        self.all_of
    }

    /// A builder that begins with an array whose items are what was built.
    ///
    /// Fails where memory runs out, and then gives up what was built.
    pub fn to_array_builder(self, alloc: Global) -> Result<ArrayBuilder, AllocError>
        ensures { IfOk result (λ b. IsArrayOf one_array (all_of_place (built_all_of self)) (built_array b)) }
    {
        ArrayBuilder::of_items(alloc, RefOr::T(Schema::AllOf(self.all_of)))
    }
}

impl From<AllOf> for AllOfBuilder {
    ghost use Rattle.utoipa_schema.specs.Builders.{built_all_of};

    ghost from_gives = { λ all_of builder. built_all_of builder ≡ all_of };

    fn from(all_of: AllOf) -> AllOfBuilder {
        AllOfBuilder { all_of }
    }
}

impl From<AllOfBuilder> for AllOf {
    ghost use Rattle.utoipa_schema.specs.Builders.{built_all_of};

    ghost from_gives = { λ builder all_of. all_of ≡ built_all_of builder };

    fn from(builder: AllOfBuilder) -> AllOf {
        builder.build()
    }
}
