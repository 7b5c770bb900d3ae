//! Schemas of arrays.
ghost use Rattle.std.specs.Prelude.{◌≡◌, IfOk};
ghost use Rattle.std.specs.Iterator.{IsFinite};
ghost use Rattle.utoipa_base.specs.Fill.{IsBoxedIfAny};
ghost use Rattle.utoipa_base.specs.Lists.{EachIterator, IsFilledFrom};
ghost use Rattle.utoipa_base.specs.declared.refs.Ref.{Ref};
ghost use Rattle.utoipa_base.specs.declared.refs.RefOr.{RefOr};
ghost use Rattle.utoipa_schema.specs.declared.types.Schema.{Schema};
ghost use Rattle.utoipa_schema.specs.Builders.{built_array, array_place, object_place, reference_place, one_array, any_value, IsArrayOf, IsArrayWith, IsNullableArrayOf, IsItemsOf, IsTypesOf, array_and_null, IsEmptyObject, Schemas, Values};

use crate::types::{Array, ArrayItems, Object, Schema};
use serde_json::Value;
use std::alloc::{AllocError, Global};
use utoipa_base::{Deprecated, Extensions, Ref, RefOr, boxed_if_any, list_from, set};
use utoipa_schema_parts::{SchemaType, TypeWord, Xml};

impl Array {
    /// The schema of an array whose items are of a schema, and of which nothing else is said. Fails where memory runs
    /// out.
    pub fn new(alloc: Global, items: RefOr<Schema>) -> Result<Array, AllocError>
        ensures { IfOk result (λ array. IsArrayOf one_array items array) }
    {
        let items = ArrayItems::boxed(alloc, items)?;
        Ok(array_with(alloc, SchemaType::Single(TypeWord::Array), items))
    }

    /// The schema of an array whose items are of a schema, or null: its types are `array` and `null`. Fails where
    /// memory runs out.
    pub fn new_nullable(alloc: Global, items: RefOr<Schema>) -> Result<Array, AllocError>
        ensures { IfOk result (λ array. IsNullableArrayOf items array) }
    {
        let items = ArrayItems::boxed(alloc, items)?;
        let schema_type = array_or_null(alloc)?;
        Ok(array_with(alloc, schema_type, items))
    }

    /// A builder that begins with an array whose items are any value. Fails where memory runs out.
    pub fn builder(alloc: Global) -> Result<ArrayBuilder, AllocError>
        ensures { IfOk result (λ b. (object : Object) × IsEmptyObject any_value object
            × IsArrayOf one_array (object_place object) (built_array b)) }
    {
        ArrayBuilder::new(alloc)
    }
}

/// The types of an array or null.
fn array_or_null(alloc: Global) -> Result<SchemaType, AllocError>
    ensures { IfOk result (λ types. IsTypesOf array_and_null types) }
{
    let words = vec![in alloc; TypeWord::Array, TypeWord::Null]?;
    Ok(SchemaType::Array(words))
}

/// An array of the types, with its items, of which nothing else is said.
fn array_with(alloc: Global, schema_type: SchemaType, items: ArrayItems) -> Array
    ensures { IsArrayWith schema_type items result }
{
    Array {
        schema_type,
        title: None,
        items,
        prefix_items: Vec::new(alloc),
        description: None,
        deprecated: None,
        example: None,
        examples: Vec::new(alloc),
        default: None,
        max_items: None,
        min_items: None,
        unique_items: false,
        xml: None,
        content_encoding: String::new(alloc),
        content_media_type: String::new(alloc),
        content_schema: None,
        extensions: None,
    }
}

impl ArrayItems {
    /// Items of a schema. Fails where memory runs out, and then gives up the schema.
    pub fn boxed(alloc: Global, schema: RefOr<Schema>) -> Result<ArrayItems, AllocError>
        ensures { IfOk result (λ items. IsItemsOf schema items) }
    {
        Ok(ArrayItems::RefOrSchema(Box::new(alloc, schema)?))
    }
}

/// Builds an [`Array`].
#[derive(Debug, Drop)]
pub struct ArrayBuilder {
    array: Array,
}

impl ArrayBuilder {
    /// Begins with an array whose items are any value. Fails where memory runs out.
    pub fn new(alloc: Global) -> Result<ArrayBuilder, AllocError>
        ensures { IfOk result (λ b. (object : Object) × IsEmptyObject any_value object
            × IsArrayOf one_array (object_place object) (built_array b)) }
    {
        let object = Object::with_type(alloc, SchemaType::AnyValue);
        let array = Array::new(alloc, RefOr::T(Schema::Object(object)))?;
        Ok(ArrayBuilder { array })
    }

    /// Begins with an array whose items are of a schema. Fails where memory runs out, and then gives up the schema.
    pub(crate) fn of_items(alloc: Global, items: RefOr<Schema>) -> Result<ArrayBuilder, AllocError>
        ensures { IfOk result (λ b. IsArrayOf one_array items (built_array b)) }
    {
        let array = Array::new(alloc, items)?;
        Ok(ArrayBuilder { array })
    }

    /// Sets the types of the value.
    pub fn schema_type(mut self, schema_type: SchemaType) -> ArrayBuilder
        ensures { built_array result ≡ record (built_array self) { schema_type = schema_type } }
    {
        self.array.schema_type = schema_type;
        self
    }

    /// Sets the title.
    pub fn title(mut self, title: Option<String>) -> ArrayBuilder
        ensures { built_array result ≡ record (built_array self) { title = title } }
    {
        self.array.title = title;
        self
    }

    /// Sets what the items are.
    pub fn items(mut self, items: ArrayItems) -> ArrayBuilder
        ensures { built_array result ≡ record (built_array self) { items = items } }
    {
        self.array.items = items;
        self
    }

    /// Sets the schema of each of the first items. The iterator has to end.
    ///
    /// Fails where memory runs out, and then gives up what was built.
    pub fn prefix_items<I: IntoIterator<Item = Schema>>(
        mut self,
        alloc: Global,
        prefix_items: I,
    ) -> Result<ArrayBuilder, AllocError>
        requires can { EachIterator I.into_iter_gives I.IntoIter.can_next prefix_items }
        requires ends { EachIterator I.into_iter_gives (λ it. IsFinite (I.IntoIter.remaining it)) prefix_items }
        ensures { IfOk result (λ b. (listed : Schemas)
            × IsFilledFrom I.into_iter_gives I.IntoIter.next_gives prefix_items listed
            × (built_array b ≡ record (built_array self) { prefix_items = listed })) }
    {
        let prefix_items = list_from(alloc, prefix_items);
        set(&mut self.array.prefix_items, prefix_items).and(Ok(self))
    }

    /// Sets the description.
    pub fn description(mut self, description: Option<String>) -> ArrayBuilder
        ensures { built_array result ≡ record (built_array self) { description = description } }
    {
        self.array.description = description;
        self
    }

    /// Sets whether the value should no longer be used.
    pub fn deprecated(mut self, deprecated: Option<Deprecated>) -> ArrayBuilder
        ensures { built_array result ≡ record (built_array self) { deprecated = deprecated } }
    {
        self.array.deprecated = deprecated;
        self
    }

    /// Sets the example, in place of which `examples` is recommended.
    pub fn example(mut self, example: Option<Value>) -> ArrayBuilder
        ensures { built_array result ≡ record (built_array self) { example = example } }
    {
        self.array.example = example;
        self
    }

    /// Sets the examples of the value. The iterator has to end.
    ///
    /// Fails where memory runs out, and then gives up what was built.
    pub fn examples<I: IntoIterator<Item = Value>>(
        mut self,
        alloc: Global,
        examples: I,
    ) -> Result<ArrayBuilder, AllocError>
        requires can { EachIterator I.into_iter_gives I.IntoIter.can_next examples }
        requires ends { EachIterator I.into_iter_gives (λ it. IsFinite (I.IntoIter.remaining it)) examples }
        ensures { IfOk result (λ b. (listed : Values)
            × IsFilledFrom I.into_iter_gives I.IntoIter.next_gives examples listed
            × (built_array b ≡ record (built_array self) { examples = listed })) }
    {
        let examples = list_from(alloc, examples);
        set(&mut self.array.examples, examples).and(Ok(self))
    }

    /// Sets the value that is taken where there is none.
    pub fn default(mut self, default: Option<Value>) -> ArrayBuilder
        ensures { built_array result ≡ record (built_array self) { default = default } }
    {
        self.array.default = default;
        self
    }

    /// Sets the greatest number of items.
    pub fn max_items(mut self, max_items: Option<usize>) -> ArrayBuilder
        ensures { built_array result ≡ record (built_array self) { max_items = max_items } }
    {
        self.array.max_items = max_items;
        self
    }

    /// Sets the least number of items.
    pub fn min_items(mut self, min_items: Option<usize>) -> ArrayBuilder
        ensures { built_array result ≡ record (built_array self) { min_items = min_items } }
    {
        self.array.min_items = min_items;
        self
    }

    /// Sets whether no two items may be equal.
    pub fn unique_items(mut self, unique_items: bool) -> ArrayBuilder
        ensures { built_array result ≡ record (built_array self) { unique_items = unique_items } }
    {
        self.array.unique_items = unique_items;
        self
    }

    /// Sets how the value is written in XML.
    pub fn xml(mut self, xml: Option<Xml>) -> ArrayBuilder
        ensures { built_array result ≡ record (built_array self) { xml = xml } }
    {
        self.array.xml = xml;
        self
    }

    /// Sets how bytes are encoded in a text; the empty text leaves it unsaid.
    pub fn content_encoding(mut self, content_encoding: String) -> ArrayBuilder
        ensures { built_array result ≡ record (built_array self) { content_encoding = content_encoding } }
    {
        self.array.content_encoding = content_encoding;
        self
    }

    /// Sets the media type of a text's content; the empty text leaves it unsaid.
    pub fn content_media_type(mut self, content_media_type: String) -> ArrayBuilder
        ensures { built_array result ≡ record (built_array self) { content_media_type = content_media_type } }
    {
        self.array.content_media_type = content_media_type;
        self
    }

    /// Sets the schema of a text's content.
    ///
    /// Fails where memory runs out, and then gives up what was built.
    pub fn content_schema(
        mut self,
        alloc: Global,
        content_schema: Option<RefOr<Schema>>,
    ) -> Result<ArrayBuilder, AllocError>
        ensures { IfOk result (λ b. (boxed : _) × IsBoxedIfAny content_schema boxed
            × (built_array b ≡ record (built_array self) { content_schema = boxed })) }
    {
        let content_schema = boxed_if_any(alloc, content_schema);
        set(&mut self.array.content_schema, content_schema).and(Ok(self))
    }

    /// Sets the specification extensions.
    pub fn extensions(mut self, extensions: Option<Extensions>) -> ArrayBuilder
        ensures { built_array result ≡ record (built_array self) { extensions = extensions } }
    {
        self.array.extensions = extensions;
        self
    }

    /// The array that was built.
    pub fn build(self) -> Array
        ensures { result ≡ built_array self }
    {
        self.array
    }

    /// A builder that begins with an array whose items are what was built.
    ///
    /// Fails where memory runs out, and then gives up what was built.
    pub fn to_array_builder(self, alloc: Global) -> Result<ArrayBuilder, AllocError>
        ensures { IfOk result (λ b. IsArrayOf one_array (array_place (built_array self)) (built_array b)) }
    {
        ArrayBuilder::of_items(alloc, RefOr::T(Schema::Array(self.array)))
    }
}

impl From<Array> for ArrayBuilder {
    ghost use Rattle.utoipa_schema.specs.Builders.{built_array};

    ghost from_gives = { λ array builder. built_array builder ≡ array };

    fn from(array: Array) -> ArrayBuilder {
        ArrayBuilder { array }
    }
}

impl From<ArrayBuilder> for Array {
    ghost use Rattle.utoipa_schema.specs.Builders.{built_array};

    ghost from_gives = { λ builder array. array ≡ built_array builder };

    fn from(builder: ArrayBuilder) -> Array {
        builder.build()
    }
}

/// A schema that an array can be made of.
pub trait ToArray {
    /// The schema as an array's items have it.
    ghost place: { Self → RefOr Schema };

    /// An array whose items are of the schema. Fails where memory runs out, and then gives up the schema.
    fn to_array(self, alloc: Global) -> Result<Array, AllocError>
        ensures { IfOk result (λ array. IsArrayOf one_array (place self) array) };
}

impl ToArray for Object {
    ghost use Rattle.utoipa_schema.specs.Builders.{object_place};

    ghost place = { object_place };

    fn to_array(self, alloc: Global) -> Result<Array, AllocError> {
        Array::new(alloc, RefOr::T(Schema::Object(self)))
    }
}

impl ToArray for Array {
    ghost use Rattle.utoipa_schema.specs.Builders.{array_place};

    ghost place = { array_place };

    fn to_array(self, alloc: Global) -> Result<Array, AllocError> {
        Array::new(alloc, RefOr::T(Schema::Array(self)))
    }
}

impl ToArray for RefOr<Schema> {
    ghost place = { λ schema. schema };

    fn to_array(self, alloc: Global) -> Result<Array, AllocError> {
        Array::new(alloc, self)
    }
}

/// A reference to a schema that an array can be made of.
pub trait RefToArray {
    /// The reference.
    ghost reference: { Self → Ref };

    /// A builder that begins with an array whose items are what is referenced. Fails where memory runs out, and then
    /// gives up the reference.
    fn to_array_builder(self, alloc: Global) -> Result<ArrayBuilder, AllocError>
        ensures { IfOk result (λ b. IsArrayOf one_array (reference_place (reference self)) (built_array b)) };
}

impl RefToArray for Ref {
    ghost reference = { λ reference. reference };

    fn to_array_builder(self, alloc: Global) -> Result<ArrayBuilder, AllocError> {
        ArrayBuilder::of_items(alloc, RefOr::Ref(self))
    }
}
