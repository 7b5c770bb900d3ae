//! Schemas of objects, and of values of any type but an array.
ghost use Rattle.std.specs.Prelude.{◌≡◌, ◌++◌, ◌∷◌, [], Some, Option, IfOk, string_cmp};
ghost use Rattle.std.specs.BTreeMap.{insert_entry};
ghost use Rattle.std.specs.Iterator.{IsFinite};
ghost use Rattle.std.specs.Option.{ForSome};
ghost use Rattle.utoipa_base.specs.Fill.{IsBoxedIfAny};
ghost use Rattle.utoipa_base.specs.Lists.{EachIterator, IsFilledFrom, IsFilledIfAny};
ghost use Rattle.utoipa_schema.specs.Builders.{built_object, built_array, object_place, one_object, one_array, IsEmptyObject, IsArrayOf, IsEmptySchema, Texts, Values, Properties};

use crate::array::ArrayBuilder;
use crate::lists::push_one;
use crate::types::{AdditionalProperties, Object, Schema};
use serde_json::Value;
use std::alloc::{AllocError, Global};
use std::collections::BTreeMap;
use utoipa_base::{
    Deprecated, Extensions, Number, RefOr, boxed_if_any, list_from, list_if_any, put, set,
};
use utoipa_schema_parts::{SchemaFormat, SchemaType, TypeWord, Xml};

impl Object {
    /// The schema of an object, of which nothing else is said. Takes no memory.
    pub fn new(alloc: Global) -> Object
        ensures { IsEmptyObject one_object result }
    {
        Object::with_type(alloc, SchemaType::Single(TypeWord::Object))
    }

    /// The schema of a value of the types, of which nothing else is said. Takes no memory.
    pub fn with_type(alloc: Global, schema_type: SchemaType) -> Object
        ensures { IsEmptyObject schema_type result }
    {
        Object {
            schema_type,
            title: None,
            format: None,
            description: None,
            default: None,
            enum_values: None,
            required: Vec::new(alloc),
            properties: BTreeMap::new(alloc),
            additional_properties: None,
            property_names: None,
            deprecated: None,
            example: None,
            examples: Vec::new(alloc),
            write_only: None,
            read_only: None,
            xml: None,
            multiple_of: None,
            maximum: None,
            minimum: None,
            exclusive_maximum: None,
            exclusive_minimum: None,
            max_length: None,
            min_length: None,
            pattern: None,
            max_properties: None,
            min_properties: None,
            content_encoding: String::new(alloc),
            content_media_type: String::new(alloc),
            content_schema: None,
            extensions: None,
        }
    }

    /// A builder that begins with an object of which nothing else is said. Takes no memory.
    pub fn builder(alloc: Global) -> ObjectBuilder
        ensures { IsEmptyObject one_object (built_object result) }
    {
        ObjectBuilder::new(alloc)
    }
}

/// The schema of any value, whose default is null. Takes no memory.
pub fn empty(alloc: Global) -> Schema
    ensures { IsEmptySchema result }
{
    let mut object = Object::with_type(alloc, SchemaType::AnyValue);
    object.default = Some(Value::Null);
    Schema::Object(object)
}

/// Builds an [`Object`].
#[derive(Debug, Drop)]
pub struct ObjectBuilder {
    object: Object,
}

impl ObjectBuilder {
    /// Begins with an object of which nothing else is said. Takes no memory.
    pub fn new(alloc: Global) -> ObjectBuilder
        ensures { IsEmptyObject one_object (built_object result) }
    {
        ObjectBuilder {
            object: Object::new(alloc),
        }
    }

    /// Sets the types of the value.
    pub fn schema_type(mut self, schema_type: SchemaType) -> ObjectBuilder
        ensures { built_object result ≡ record (built_object self) { schema_type = schema_type } }
    {
        self.object.schema_type = schema_type;
        self
    }

    /// Sets the title.
    pub fn title(mut self, title: Option<String>) -> ObjectBuilder
        ensures { built_object result ≡ record (built_object self) { title = title } }
    {
        self.object.title = title;
        self
    }

    /// Sets the format of the value.
    pub fn format(mut self, format: Option<SchemaFormat>) -> ObjectBuilder
        ensures { built_object result ≡ record (built_object self) { format = format } }
    {
        self.object.format = format;
        self
    }

    /// Sets the description.
    pub fn description(mut self, description: Option<String>) -> ObjectBuilder
        ensures { built_object result ≡ record (built_object self) { description = description } }
    {
        self.object.description = description;
        self
    }

    /// Sets the value that is taken where there is none.
    pub fn default(mut self, default: Option<Value>) -> ObjectBuilder
        ensures { built_object result ≡ record (built_object self) { default = default } }
    {
        self.object.default = default;
        self
    }

    /// Sets the values that are allowed: the member `enum`. The iterator has to end.
    ///
    /// Fails where memory runs out, and then gives up what was built.
    pub fn enum_values<I: IntoIterator<Item = Value>>(
        mut self,
        alloc: Global,
        enum_values: Option<I>,
    ) -> Result<ObjectBuilder, AllocError>
        requires can { ForSome enum_values (EachIterator I.into_iter_gives I.IntoIter.can_next) }
        requires ends { ForSome enum_values (EachIterator I.into_iter_gives
            (λ it. IsFinite (I.IntoIter.remaining it))) }
        ensures { IfOk result (λ b. (listed : Option Values)
            × IsFilledIfAny I.into_iter_gives I.IntoIter.next_gives enum_values listed
            × (built_object b ≡ record (built_object self) { enum_values = listed })) }
    {
        let enum_values = list_if_any(alloc, enum_values);
        set(&mut self.object.enum_values, enum_values).and(Ok(self))
    }

    /// Adds the name of a property that has to be there, after those that were added.
    ///
    /// Fails where memory runs out, and then gives up what was built.
    pub fn required(mut self, name: String) -> Result<ObjectBuilder, AllocError>
        ensures { IfOk result (λ b. (listed : Texts) × (listed.items ≡ (built_object self).required.items ++ name ∷ [])
            × (built_object b ≡ record (built_object self) { required = listed })) }
    {
        push_one(&mut self.object.required, name).and(Ok(self))
    }

    /// Puts the schema of a property under its name, in place of an earlier one of that name.
    ///
    /// Fails where memory runs out, and then gives up what was built.
    pub fn property(
        mut self,
        name: String,
        schema: RefOr<Schema>,
    ) -> Result<ObjectBuilder, AllocError>
        ensures { IfOk result (λ b. (properties : Properties)
            × (properties.entries ≡ insert_entry string_cmp (built_object self).properties.entries name schema)
            × (built_object b ≡ record (built_object self) { properties = properties })) }
    {
        put(&mut self.object.properties, name, schema).and(Ok(self))
    }

    /// Sets what the properties are that are not listed.
    ///
    /// Fails where memory runs out, and then gives up what was built.
    pub fn additional_properties(
        mut self,
        alloc: Global,
        additional_properties: Option<AdditionalProperties<Schema>>,
    ) -> Result<ObjectBuilder, AllocError>
        ensures { IfOk result (λ b. (boxed : _) × IsBoxedIfAny additional_properties boxed
            × (built_object b ≡ record (built_object self) { additional_properties = boxed })) }
    {
        let additional_properties = boxed_if_any(alloc, additional_properties);
        set(
            &mut self.object.additional_properties,
            additional_properties,
        )
        .and(Ok(self))
    }

    /// Sets what the names of properties have to be.
    ///
    /// Fails where memory runs out, and then gives up what was built.
    pub fn property_names(
        mut self,
        alloc: Global,
        property_names: Option<Schema>,
    ) -> Result<ObjectBuilder, AllocError>
        ensures { IfOk result (λ b. (boxed : _) × IsBoxedIfAny property_names boxed
            × (built_object b ≡ record (built_object self) { property_names = boxed })) }
    {
        let property_names = boxed_if_any(alloc, property_names);
        set(&mut self.object.property_names, property_names).and(Ok(self))
    }

    /// Sets whether the value should no longer be used.
    pub fn deprecated(mut self, deprecated: Option<Deprecated>) -> ObjectBuilder
        ensures { built_object result ≡ record (built_object self) { deprecated = deprecated } }
    {
        self.object.deprecated = deprecated;
        self
    }

    /// Sets the example, in place of which `examples` is recommended.
    pub fn example(mut self, example: Option<Value>) -> ObjectBuilder
        ensures { built_object result ≡ record (built_object self) { example = example } }
    {
        self.object.example = example;
        self
    }

    /// Sets the examples of the value. The iterator has to end.
    ///
    /// Fails where memory runs out, and then gives up what was built.
    pub fn examples<I: IntoIterator<Item = Value>>(
        mut self,
        alloc: Global,
        examples: I,
    ) -> Result<ObjectBuilder, AllocError>
        requires can { EachIterator I.into_iter_gives I.IntoIter.can_next examples }
        requires ends { EachIterator I.into_iter_gives (λ it. IsFinite (I.IntoIter.remaining it)) examples }
        ensures { IfOk result (λ b. (listed : Values)
            × IsFilledFrom I.into_iter_gives I.IntoIter.next_gives examples listed
            × (built_object b ≡ record (built_object self) { examples = listed })) }
    {
        let examples = list_from(alloc, examples);
        set(&mut self.object.examples, examples).and(Ok(self))
    }

    /// Sets whether the value is only sent to the server.
    pub fn write_only(mut self, write_only: bool) -> ObjectBuilder
        ensures { built_object result ≡ record (built_object self) { write_only = Some write_only } }
    {
        self.object.write_only = Some(write_only);
        self
    }

    /// Sets whether the value is only sent by the server.
    pub fn read_only(mut self, read_only: bool) -> ObjectBuilder
        ensures { built_object result ≡ record (built_object self) { read_only = Some read_only } }
    {
        self.object.read_only = Some(read_only);
        self
    }

    /// Sets how the value is written in XML.
    pub fn xml(mut self, xml: Option<Xml>) -> ObjectBuilder
        ensures { built_object result ≡ record (built_object self) { xml = xml } }
    {
        self.object.xml = xml;
        self
    }

    /// Sets the number that the value has to be a multiple of.
    pub fn multiple_of(mut self, multiple_of: Option<Number>) -> ObjectBuilder
        ensures { built_object result ≡ record (built_object self) { multiple_of = multiple_of } }
    {
        self.object.multiple_of = multiple_of;
        self
    }

    /// Sets the greatest number that is allowed.
    pub fn maximum(mut self, maximum: Option<Number>) -> ObjectBuilder
        ensures { built_object result ≡ record (built_object self) { maximum = maximum } }
    {
        self.object.maximum = maximum;
        self
    }

    /// Sets the least number that is allowed.
    pub fn minimum(mut self, minimum: Option<Number>) -> ObjectBuilder
        ensures { built_object result ≡ record (built_object self) { minimum = minimum } }
    {
        self.object.minimum = minimum;
        self
    }

    /// Sets the number that the value has to be less than.
    pub fn exclusive_maximum(mut self, exclusive_maximum: Option<Number>) -> ObjectBuilder
        ensures { built_object result ≡ record (built_object self) { exclusive_maximum = exclusive_maximum } }
    {
        self.object.exclusive_maximum = exclusive_maximum;
        self
    }

    /// Sets the number that the value has to be greater than.
    pub fn exclusive_minimum(mut self, exclusive_minimum: Option<Number>) -> ObjectBuilder
        ensures { built_object result ≡ record (built_object self) { exclusive_minimum = exclusive_minimum } }
    {
        self.object.exclusive_minimum = exclusive_minimum;
        self
    }

    /// Sets the greatest length of a text, in characters.
    pub fn max_length(mut self, max_length: Option<usize>) -> ObjectBuilder
        ensures { built_object result ≡ record (built_object self) { max_length = max_length } }
    {
        self.object.max_length = max_length;
        self
    }

    /// Sets the least length of a text, in characters.
    pub fn min_length(mut self, min_length: Option<usize>) -> ObjectBuilder
        ensures { built_object result ≡ record (built_object self) { min_length = min_length } }
    {
        self.object.min_length = min_length;
        self
    }

    /// Sets the regular expression that a text has to match somewhere.
    pub fn pattern(mut self, pattern: Option<String>) -> ObjectBuilder
        ensures { built_object result ≡ record (built_object self) { pattern = pattern } }
    {
        self.object.pattern = pattern;
        self
    }

    /// Sets the greatest number of properties.
    pub fn max_properties(mut self, max_properties: Option<usize>) -> ObjectBuilder
        ensures { built_object result ≡ record (built_object self) { max_properties = max_properties } }
    {
        self.object.max_properties = max_properties;
        self
    }

    /// Sets the least number of properties.
    pub fn min_properties(mut self, min_properties: Option<usize>) -> ObjectBuilder
        ensures { built_object result ≡ record (built_object self) { min_properties = min_properties } }
    {
        self.object.min_properties = min_properties;
        self
    }

    /// Sets how bytes are encoded in a text; the empty text leaves it unsaid.
    pub fn content_encoding(mut self, content_encoding: String) -> ObjectBuilder
        ensures { built_object result ≡ record (built_object self) { content_encoding = content_encoding } }
    {
        self.object.content_encoding = content_encoding;
        self
    }

    /// Sets the media type of a text's content; the empty text leaves it unsaid.
    pub fn content_media_type(mut self, content_media_type: String) -> ObjectBuilder
        ensures { built_object result ≡ record (built_object self) { content_media_type = content_media_type } }
    {
        self.object.content_media_type = content_media_type;
        self
    }

    /// Sets the schema of a text's content.
    ///
    /// Fails where memory runs out, and then gives up what was built.
    pub fn content_schema(
        mut self,
        alloc: Global,
        content_schema: Option<RefOr<Schema>>,
    ) -> Result<ObjectBuilder, AllocError>
        ensures { IfOk result (λ b. (boxed : _) × IsBoxedIfAny content_schema boxed
            × (built_object b ≡ record (built_object self) { content_schema = boxed })) }
    {
        let content_schema = boxed_if_any(alloc, content_schema);
        set(&mut self.object.content_schema, content_schema).and(Ok(self))
    }

    /// Sets the specification extensions.
    pub fn extensions(mut self, extensions: Option<Extensions>) -> ObjectBuilder
        ensures { built_object result ≡ record (built_object self) { extensions = extensions } }
    {
        self.object.extensions = extensions;
        self
    }

    /// The object that was built.
    pub fn build(self) -> Object
        ensures { result ≡ built_object self }
    {
        self.object
    }

    /// A builder that begins with an array whose items are what was built.
    ///
    /// Fails where memory runs out, and then gives up what was built.
    pub fn to_array_builder(self, alloc: Global) -> Result<ArrayBuilder, AllocError>
        ensures { IfOk result (λ b. IsArrayOf one_array (object_place (built_object self)) (built_array b)) }
    {
        ArrayBuilder::of_items(alloc, RefOr::T(Schema::Object(self.object)))
    }
}

impl From<Object> for ObjectBuilder {
    ghost use Rattle.utoipa_schema.specs.Builders.{built_object};

    ghost from_gives = { λ object builder. built_object builder ≡ object };

    fn from(object: Object) -> ObjectBuilder {
        ObjectBuilder { object }
    }
}

impl From<ObjectBuilder> for Object {
    ghost use Rattle.utoipa_schema.specs.Builders.{built_object};

    ghost from_gives = { λ builder object. object ≡ built_object builder };

    fn from(builder: ObjectBuilder) -> Object {
        builder.build()
    }
}
