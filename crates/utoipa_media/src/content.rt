//! Contents of media types.
ghost use Rattle.std.specs.Prelude.{◌≡◌, None, IfOk, string_cmp};
ghost use Rattle.std.specs.BTreeMap.{insert_entry};
ghost use Rattle.std.specs.Iterator.{IsFinite};
ghost use Rattle.utoipa_base.specs.Fill.{IsBoxedIfAny, Pairs, put_each};
ghost use Rattle.utoipa_base.specs.declared.refs.RefOr.{RefOr};
ghost use Rattle.utoipa_base.specs.Lists.{EachIterator, GivesAll, IsFilledFrom};
ghost use Rattle.utoipa_leaf.specs.declared.example.Example.{Example};
ghost use Rattle.utoipa_media.specs.Builders.{built_content, IsContentPlace, IsContentOf, Examples, Encodings, ItemEncodings};
ghost use Rattle.utoipa_media.specs.declared.types.Content.{out-Content};

use crate::encoding::Encoding;
use crate::fill::set_list;
pub use crate::types::Content;
use serde_json::Value;
use std::alloc::{AllocError, Global};
use std::collections::BTreeMap;
use std::mem;
use utoipa_base::{Extensions, RefOr, boxed_if_any, put, put_each, set};
use utoipa_leaf::example::Example;
use utoipa_schema::Schema;

impl Content {
    /// A content of a schema, where there is one, of which nothing else is said. Takes no memory.
    pub fn new(alloc: Global, schema: Option<RefOr<Schema>>) -> Content
        ensures { IsContentOf schema (out-Content result) }
    {
        Content {
            schema,
            item_schema: None,
            description: None,
            example: None,
            examples: BTreeMap::new(alloc),
            encoding: BTreeMap::new(alloc),
            prefix_encoding: Vec::new(alloc),
            item_encoding: None,
            extensions: None,
        }
    }

    /// A builder that begins with a content of which nothing is said. Takes no memory.
    pub fn builder(alloc: Global) -> ContentBuilder
        ensures { IsContentOf None (built_content result) }
    {
        ContentBuilder::new(alloc)
    }
}

/// Builds a [`Content`].
#[derive(Debug, Drop)]
pub struct ContentBuilder {
    content: Content,
}

impl ContentBuilder {
    /// Begins with a content of which nothing is said. Takes no memory.
    pub fn new(alloc: Global) -> ContentBuilder
        ensures { IsContentOf None (built_content result) }
    {
        ContentBuilder {
            content: Content::new(alloc, None),
        }
    }

    /// Sets the schema of the content.
    pub fn schema(mut self, schema: Option<RefOr<Schema>>) -> ContentBuilder
        ensures { built_content result ≡ record (built_content self) { schema = schema } }
    {
        drop(mem::replace(&mut self.content.schema, schema));
        self
    }

    /// Sets the schema of each item of a sequence.
    pub fn item_schema(mut self, item_schema: Option<RefOr<Schema>>) -> ContentBuilder
        ensures { built_content result ≡ record (built_content self) { item_schema = item_schema } }
    {
        drop(mem::replace(&mut self.content.item_schema, item_schema));
        self
    }

    /// Sets the description.
    pub fn description(mut self, description: Option<String>) -> ContentBuilder
        ensures { built_content result ≡ record (built_content self) { description = description } }
    {
        self.content.description = description;
        self
    }

    /// Sets the example of the content.
    pub fn example(mut self, example: Option<Value>) -> ContentBuilder
        ensures { built_content result ≡ record (built_content self) { example = example } }
    {
        self.content.example = example;
        self
    }

    /// Puts each of the examples under its name, in place of an earlier one of that name. The iterator has to end.
    ///
    /// Fails where memory runs out, and then gives up what was built.
    pub fn examples_from_iter<I: IntoIterator<Item = (String, RefOr<Example>)>>(
        mut self,
        examples: I,
    ) -> Result<ContentBuilder, AllocError>
        requires can { EachIterator I.into_iter_gives I.IntoIter.can_next examples }
        requires ends { EachIterator I.into_iter_gives (λ it. IsFinite (I.IntoIter.remaining it)) examples }
        ensures { IfOk result (λ b. (given : Pairs (RefOr Example)) × (held : Examples)
            × GivesAll I.into_iter_gives I.IntoIter.next_gives examples given
            × (held.entries ≡ put_each given (built_content self).examples.entries)
            × (built_content b ≡ record (built_content self) { examples = held })) }
    {
        put_each(&mut self.content.examples, examples).and(Ok(self))
    }

    /// Puts the encoding of a property under the property's name, in place of an earlier one of that name.
    ///
    /// Fails where memory runs out, and then gives up what was built.
    pub fn encoding(
        mut self,
        property_name: String,
        encoding: Encoding,
    ) -> Result<ContentBuilder, AllocError>
        ensures { IfOk result (λ b. (encodings : Encodings)
            × (encodings.entries
            ≡ insert_entry string_cmp (built_content self).encoding.entries property_name encoding)
            × (built_content b ≡ record (built_content self) { encoding = encodings })) }
    {
        put(&mut self.content.encoding, property_name, encoding).and(Ok(self))
    }

    /// Sets how each of the first items is encoded. The iterator has to end.
    ///
    /// Fails where memory runs out, and then gives up what was built.
    pub fn prefix_encoding<I: IntoIterator<Item = Encoding>>(
        mut self,
        alloc: Global,
        prefix_encoding: I,
    ) -> Result<ContentBuilder, AllocError>
        requires can { EachIterator I.into_iter_gives I.IntoIter.can_next prefix_encoding }
        requires ends { EachIterator I.into_iter_gives (λ it. IsFinite (I.IntoIter.remaining it)) prefix_encoding }
        ensures { IfOk result (λ b. (listed : ItemEncodings)
            × IsFilledFrom I.into_iter_gives I.IntoIter.next_gives prefix_encoding listed
            × (built_content b ≡ record (built_content self) { prefix_encoding = listed })) }
    {
        set_list(&mut self.content.prefix_encoding, alloc, prefix_encoding).and(Ok(self))
    }

    /// Sets how the items after the first are encoded.
    ///
    /// Fails where memory runs out, and then gives up what was built.
    pub fn item_encoding(
        mut self,
        alloc: Global,
        item_encoding: Option<Encoding>,
    ) -> Result<ContentBuilder, AllocError>
        ensures { IfOk result (λ b. (boxed : _) × IsBoxedIfAny item_encoding boxed
            × (built_content b ≡ record (built_content self) { item_encoding = boxed })) }
    {
        let item_encoding = boxed_if_any(alloc, item_encoding);
        set(&mut self.content.item_encoding, item_encoding).and(Ok(self))
    }

    /// Sets the specification extensions.
    pub fn extensions(mut self, extensions: Option<Extensions>) -> ContentBuilder
        ensures { built_content result ≡ record (built_content self) { extensions = extensions } }
    {
        self.content.extensions = extensions;
        self
    }

    /// The content that was built.
    pub fn build(self) -> Content
        ensures { out-Content result ≡ built_content self }
    {
        self.content
    }
}

impl From<Content> for ContentBuilder {
    ghost from_gives = { λ content builder. built_content builder ≡ out-Content content };

    fn from(content: Content) -> ContentBuilder {
        ContentBuilder { content }
    }
}

impl From<ContentBuilder> for Content {
    ghost from_gives = { λ builder content. out-Content content ≡ built_content builder };

    fn from(builder: ContentBuilder) -> Content {
        builder.build()
    }
}

impl From<ContentBuilder> for RefOr<Content> {
    ghost from_gives = { λ builder place. IsContentPlace (built_content builder) place };

    fn from(builder: ContentBuilder) -> RefOr<Content> {
        RefOr::T(builder.build())
    }
}

/// The value itself.
impl From<Content> for RefOr<Content> {
    ghost use Rattle.utoipa_base.specs.declared.refs.RefOr.TheVariants as places;

    ghost from_gives = { λ value place. place ≡ places.T value };

    fn from(value: Content) -> RefOr<Content> {
        RefOr::T(value)
    }
}
