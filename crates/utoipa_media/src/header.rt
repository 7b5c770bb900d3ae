//! Headers of responses and of the parts of contents.
ghost use Rattle.std.specs.Prelude.{◌≡◌, IfOk, string_cmp};
ghost use Rattle.std.specs.BTreeMap.{insert_entry};
ghost use Rattle.std.specs.Iterator.{IsFinite};
ghost use Rattle.utoipa_base.specs.Fill.{Pairs, put_each};
ghost use Rattle.utoipa_base.specs.Lists.{EachIterator, GivesAll};
ghost use Rattle.utoipa_base.specs.declared.refs.RefOr.{RefOr};
ghost use Rattle.utoipa_leaf.specs.declared.example.Example.{Example};
ghost use Rattle.utoipa_media.specs.Builders.{built_header, IsHeaderOf, IsStringHeader, Contents, Examples};
ghost use Rattle.utoipa_media.specs.declared.types.Content.{Content};
ghost use Rattle.utoipa_media.specs.declared.types.Header.{out-Header};

use crate::content::Content;
pub use crate::types::Header;
use serde_json::Value;
use std::alloc::{AllocError, Global};
use std::collections::BTreeMap;
use std::mem;
use utoipa_base::{Deprecated, Extensions, RefOr, put, put_each};
use utoipa_leaf::example::Example;
use utoipa_leaf::path::ParameterStyle;
use utoipa_schema::{Object, Schema, SchemaType, TypeWord};

impl Header {
    /// A header of a schema, of which nothing else is said. Takes no memory.
    pub fn new(alloc: Global, schema: RefOr<Schema>) -> Header
        ensures { IsHeaderOf schema (out-Header result) }
    {
        Header {
            schema: Some(schema),
            description: None,
            deprecated: None,
            style: None,
            explode: None,
            example: None,
            examples: BTreeMap::new(alloc),
            content: BTreeMap::new(alloc),
            extensions: None,
        }
    }

    /// A builder that begins with a header that is a text, and of which nothing else is said. Takes no memory.
    pub fn builder(alloc: Global) -> HeaderBuilder
        ensures { IsStringHeader (built_header result) }
    {
        HeaderBuilder::new(alloc)
    }
}

/// Builds a [`Header`].
#[derive(Debug, Drop)]
pub struct HeaderBuilder {
    header: Header,
}

impl HeaderBuilder {
    /// Begins with a header that is a text, and of which nothing else is said. Takes no memory.
    pub fn new(alloc: Global) -> HeaderBuilder
        ensures { IsStringHeader (built_header result) }
    {
        let text = Object::with_type(alloc, SchemaType::Single(TypeWord::String));
        HeaderBuilder {
            header: Header::new(alloc, RefOr::T(Schema::Object(text))),
        }
    }

    /// Sets the schema of the value.
    pub fn schema(mut self, schema: Option<RefOr<Schema>>) -> HeaderBuilder
        ensures { built_header result ≡ record (built_header self) { schema = schema } }
    {
        drop(mem::replace(&mut self.header.schema, schema));
        self
    }

    /// Sets the description.
    pub fn description(mut self, description: Option<String>) -> HeaderBuilder
        ensures { built_header result ≡ record (built_header self) { description = description } }
    {
        self.header.description = description;
        self
    }

    /// Sets whether the header should no longer be used.
    pub fn deprecated(mut self, deprecated: Option<Deprecated>) -> HeaderBuilder
        ensures { built_header result ≡ record (built_header self) { deprecated = deprecated } }
    {
        self.header.deprecated = deprecated;
        self
    }

    /// Sets how the value is serialized.
    pub fn style(mut self, style: Option<ParameterStyle>) -> HeaderBuilder
        ensures { built_header result ≡ record (built_header self) { style = style } }
    {
        self.header.style = style;
        self
    }

    /// Sets whether the items of a list and the members of an object are written one by one.
    pub fn explode(mut self, explode: Option<bool>) -> HeaderBuilder
        ensures { built_header result ≡ record (built_header self) { explode = explode } }
    {
        self.header.explode = explode;
        self
    }

    /// Sets the example of the value.
    pub fn example(mut self, example: Option<Value>) -> HeaderBuilder
        ensures { built_header result ≡ record (built_header self) { example = example } }
    {
        self.header.example = example;
        self
    }

    /// Puts each of the examples under its name, in place of an earlier one of that name. The iterator has to end.
    ///
    /// Fails where memory runs out, and then gives up what was built.
    pub fn examples_from_iter<I: IntoIterator<Item = (String, RefOr<Example>)>>(
        mut self,
        examples: I,
    ) -> Result<HeaderBuilder, AllocError>
        requires can { EachIterator I.into_iter_gives I.IntoIter.can_next examples }
        requires ends { EachIterator I.into_iter_gives (λ it. IsFinite (I.IntoIter.remaining it)) examples }
        ensures { IfOk result (λ b. (given : Pairs (RefOr Example)) × (held : Examples)
            × GivesAll I.into_iter_gives I.IntoIter.next_gives examples given
            × (held.entries ≡ put_each given (built_header self).examples.entries)
            × (built_header b ≡ record (built_header self) { examples = held })) }
    {
        put_each(&mut self.header.examples, examples).and(Ok(self))
    }

    /// Puts a content, or a reference to one, under its media type, in place of an earlier one of that media type.
    ///
    /// Fails where memory runs out, and then gives up what was built.
    pub fn content(
        mut self,
        media_type: String,
        content: RefOr<Content>,
    ) -> Result<HeaderBuilder, AllocError>
        ensures { IfOk result (λ b. (contents : Contents)
            × (contents.entries ≡ insert_entry string_cmp (built_header self).content.entries media_type content)
            × (built_header b ≡ record (built_header self) { content = contents })) }
    {
        put(&mut self.header.content, media_type, content).and(Ok(self))
    }

    /// Puts each of the contents under its media type, in place of an earlier one of that media type. The iterator has
    /// to end.
    ///
    /// Fails where memory runs out, and then gives up what was built.
    pub fn content_from_iter<I: IntoIterator<Item = (String, RefOr<Content>)>>(
        mut self,
        contents: I,
    ) -> Result<HeaderBuilder, AllocError>
        requires can { EachIterator I.into_iter_gives I.IntoIter.can_next contents }
        requires ends { EachIterator I.into_iter_gives (λ it. IsFinite (I.IntoIter.remaining it)) contents }
        ensures { IfOk result (λ b. (given : Pairs (RefOr Content)) × (held : Contents)
            × GivesAll I.into_iter_gives I.IntoIter.next_gives contents given
            × (held.entries ≡ put_each given (built_header self).content.entries)
            × (built_header b ≡ record (built_header self) { content = held })) }
    {
        put_each(&mut self.header.content, contents).and(Ok(self))
    }

    /// Sets the specification extensions.
    pub fn extensions(mut self, extensions: Option<Extensions>) -> HeaderBuilder
        ensures { built_header result ≡ record (built_header self) { extensions = extensions } }
    {
        self.header.extensions = extensions;
        self
    }

    /// The header that was built.
    pub fn build(self) -> Header
        ensures { out-Header result ≡ built_header self }
    {
        self.header
    }
}

impl From<Header> for HeaderBuilder {
    ghost from_gives = { λ header builder. built_header builder ≡ out-Header header };

    fn from(header: Header) -> HeaderBuilder {
        HeaderBuilder { header }
    }
}

impl From<HeaderBuilder> for Header {
    ghost from_gives = { λ builder header. out-Header header ≡ built_header builder };

    fn from(builder: HeaderBuilder) -> Header {
        builder.build()
    }
}

/// The value itself.
impl From<Header> for RefOr<Header> {
    ghost use Rattle.utoipa_base.specs.declared.refs.RefOr.TheVariants as places;

    ghost from_gives = { λ value place. place ≡ places.T value };

    fn from(value: Header) -> RefOr<Header> {
        RefOr::T(value)
    }
}
