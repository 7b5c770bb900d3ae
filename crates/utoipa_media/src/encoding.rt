//! Encodings of the properties and the items of contents.
ghost use Rattle.std.specs.Prelude.{◌≡◌, IfOk, string_cmp};
ghost use Rattle.std.specs.BTreeMap.{insert_entry};
ghost use Rattle.std.specs.Iterator.{IsFinite};
ghost use Rattle.utoipa_base.specs.Fill.{IsBoxedIfAny};
ghost use Rattle.utoipa_base.specs.Lists.{EachIterator, IsFilledFrom};
ghost use Rattle.utoipa_media.specs.Builders.{built_encoding, header_place, header_reference, IsEmptyEncoding, Encodings, Headers, ItemEncodings};
ghost use Rattle.utoipa_media.specs.declared.types.Encoding.{out-Encoding};

use crate::fill::set_list;
use crate::header::Header;
pub use crate::types::Encoding;
use std::alloc::{AllocError, Global};
use std::collections::BTreeMap;
use utoipa_base::{Extensions, Ref, RefOr, boxed_if_any, put, set};
use utoipa_leaf::path::ParameterStyle;

impl Encoding {
    /// A builder that begins with an encoding of which nothing is said. Takes no memory.
    pub fn builder(alloc: Global) -> EncodingBuilder
        ensures { IsEmptyEncoding (built_encoding result) }
    {
        EncodingBuilder::new(alloc)
    }
}

/// Builds an [`Encoding`].
#[derive(Debug, Drop)]
pub struct EncodingBuilder {
    encoding: Encoding,
}

impl EncodingBuilder {
    /// Begins with an encoding of which nothing is said. Takes no memory.
    pub fn new(alloc: Global) -> EncodingBuilder
        ensures { IsEmptyEncoding (built_encoding result) }
    {
        EncodingBuilder {
            encoding: Encoding {
                content_type: None,
                headers: BTreeMap::new(alloc),
                style: None,
                explode: None,
                allow_reserved: None,
                encoding: BTreeMap::new(alloc),
                prefix_encoding: Vec::new(alloc),
                item_encoding: None,
                extensions: None,
            },
        }
    }

    /// Sets the media types of the property.
    pub fn content_type(mut self, content_type: Option<String>) -> EncodingBuilder
        ensures { built_encoding result ≡ record (built_encoding self) { content_type = content_type } }
    {
        self.encoding.content_type = content_type;
        self
    }

    /// Puts a header under its name, in place of an earlier one, or a reference, of that name.
    ///
    /// Fails where memory runs out, and then gives up what was built.
    pub fn header(mut self, name: String, header: Header) -> Result<EncodingBuilder, AllocError>
        ensures { IfOk result (λ b. (headers : Headers)
            × (headers.entries
            ≡ insert_entry string_cmp (built_encoding self).headers.entries name (header_place header))
            × (built_encoding b ≡ record (built_encoding self) { headers = headers })) }
    {
        put(&mut self.encoding.headers, name, RefOr::T(header)).and(Ok(self))
    }

    /// Puts a reference to a header under the header's name, in place of an earlier one, or a header, of that name.
    ///
    /// Fails where memory runs out, and then gives up what was built.
    pub fn header_ref(mut self, name: String, reference: Ref) -> Result<EncodingBuilder, AllocError>
        ensures { IfOk result (λ b. (headers : Headers)
            × (headers.entries
            ≡ insert_entry string_cmp (built_encoding self).headers.entries name (header_reference reference))
            × (built_encoding b ≡ record (built_encoding self) { headers = headers })) }
    {
        put(&mut self.encoding.headers, name, RefOr::Ref(reference)).and(Ok(self))
    }

    /// Sets how the property is serialized.
    pub fn style(mut self, style: Option<ParameterStyle>) -> EncodingBuilder
        ensures { built_encoding result ≡ record (built_encoding self) { style = style } }
    {
        self.encoding.style = style;
        self
    }

    /// Sets whether the items of a list and the members of an object are parameters of their own.
    pub fn explode(mut self, explode: Option<bool>) -> EncodingBuilder
        ensures { built_encoding result ≡ record (built_encoding self) { explode = explode } }
    {
        self.encoding.explode = explode;
        self
    }

    /// Sets whether reserved characters stay as they are.
    pub fn allow_reserved(mut self, allow_reserved: Option<bool>) -> EncodingBuilder
        ensures { built_encoding result ≡ record (built_encoding self) { allow_reserved = allow_reserved } }
    {
        self.encoding.allow_reserved = allow_reserved;
        self
    }

    /// Puts the encoding of a property of the property under its name, in place of an earlier one of that name.
    ///
    /// Fails where memory runs out, and then gives up what was built.
    pub fn encoding(
        mut self,
        property_name: String,
        encoding: Encoding,
    ) -> Result<EncodingBuilder, AllocError>
        ensures { IfOk result (λ b. (encodings : Encodings)
            × (encodings.entries
            ≡ insert_entry string_cmp (built_encoding self).encoding.entries property_name encoding)
            × (built_encoding b ≡ record (built_encoding self) { encoding = encodings })) }
    {
        put(&mut self.encoding.encoding, property_name, encoding).and(Ok(self))
    }

    /// Sets how each of the first items is encoded. The iterator has to end.
    ///
    /// Fails where memory runs out, and then gives up what was built.
    pub fn prefix_encoding<I: IntoIterator<Item = Encoding>>(
        mut self,
        alloc: Global,
        prefix_encoding: I,
    ) -> Result<EncodingBuilder, AllocError>
        requires can { EachIterator I.into_iter_gives I.IntoIter.can_next prefix_encoding }
        requires ends { EachIterator I.into_iter_gives (λ it. IsFinite (I.IntoIter.remaining it)) prefix_encoding }
        ensures { IfOk result (λ b. (listed : ItemEncodings)
            × IsFilledFrom I.into_iter_gives I.IntoIter.next_gives prefix_encoding listed
            × (built_encoding b ≡ record (built_encoding self) { prefix_encoding = listed })) }
    {
        set_list(&mut self.encoding.prefix_encoding, alloc, prefix_encoding).and(Ok(self))
    }

    /// Sets how the items after the first are encoded.
    ///
    /// Fails where memory runs out, and then gives up what was built.
    pub fn item_encoding(
        mut self,
        alloc: Global,
        item_encoding: Option<Encoding>,
    ) -> Result<EncodingBuilder, AllocError>
        ensures { IfOk result (λ b. (boxed : _) × IsBoxedIfAny item_encoding boxed
            × (built_encoding b ≡ record (built_encoding self) { item_encoding = boxed })) }
    {
        let item_encoding = boxed_if_any(alloc, item_encoding);
        set(&mut self.encoding.item_encoding, item_encoding).and(Ok(self))
    }

    /// Sets the specification extensions.
    pub fn extensions(mut self, extensions: Option<Extensions>) -> EncodingBuilder
        ensures { built_encoding result ≡ record (built_encoding self) { extensions = extensions } }
    {
        self.encoding.extensions = extensions;
        self
    }

    /// The encoding that was built.
    pub fn build(self) -> Encoding
        ensures { out-Encoding result ≡ built_encoding self }
    {
        self.encoding
    }
}

impl From<Encoding> for EncodingBuilder {
    ghost from_gives = { λ encoding builder. built_encoding builder ≡ out-Encoding encoding };

    fn from(encoding: Encoding) -> EncodingBuilder {
        EncodingBuilder { encoding }
    }
}

impl From<EncodingBuilder> for Encoding {
    ghost from_gives = { λ builder encoding. out-Encoding encoding ≡ built_encoding builder };

    fn from(builder: EncodingBuilder) -> Encoding {
        builder.build()
    }
}
