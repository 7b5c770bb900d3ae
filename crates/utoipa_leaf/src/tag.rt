//! Tags of operations.
ghost use Rattle.std.specs.Prelude.{◌≡◌, ◌↔◌, [], false, IfOk, IsTrue, string_bytes};
ghost use Rattle.utoipa_base.specs.Kinds.{named, tag_object};
ghost use Rattle.utoipa_base.specs.WellFormed.{has_fraction};

use crate::external_docs::ExternalDocs;
use serde_json::Value;
use std::alloc::{AllocError, Global};
use utoipa_base::{
    Documented, Emit, Extensions, JsonSink, Place, ReadFault, Readings, Same, Tree, clone_table,
    emit_table, from_fields, read_table, row_names, row_values, same_table, table_has_fraction,
};

// The rows of a tag, in the order of the members' names: mark, member, field.
macro_rules! tag_rows {
    ($lines:ident!($($arguments:tt)*)) => {
        $lines! {
            $($arguments)*;
            optional "description" description,
            optional "externalDocs" external_docs,
            optional "kind" kind,
            required "name" name,
            optional "parent" parent,
            optional "summary" summary,
        }
    };
}

/// A Tag Object (OpenAPI 3.1, section 4.8.22): what is to be said of a tag that operations bear.
#[derive(Debug, Drop)]
pub struct Tag {
    /// The name of the tag, by which operations name it.
    pub name: String,
    /// A short summary of the tag, from OpenAPI 3.2 on.
    pub summary: Option<String>,
    /// A description of the tag.
    pub description: Option<String>,
    /// The name of the tag in which this one is nested, from OpenAPI 3.2 on.
    pub parent: Option<String>,
    /// What sort of tag this is, from OpenAPI 3.2 on.
    pub kind: Option<String>,
    /// Further documentation of the tag: the member `externalDocs`.
    pub external_docs: Option<ExternalDocs>,
    /// Specification extensions.
    pub extensions: Option<Extensions>,
}

impl Tag {
    ghost use Rattle.utoipa_leaf.specs.Tag.{empty_tag, built_tag, tag_doc};

    /// A tag of a name, with nothing else.
    ///
    /// Fails where memory runs out.
    pub fn new(alloc: Global, name: &str) -> Result<Tag, AllocError>
        ensures { IfOk result (λ tag. (text : _) × (string_bytes text ≡ name.now) × (tag ≡ empty_tag text)) }
    {
        Ok(Tag::of_name(String::from_str(alloc, name)?))
    }

    // A tag of a name, with nothing else.
    fn of_name(name: String) -> Tag
        ensures { result ≡ empty_tag name }
    {
        Tag {
            name,
            summary: None,
            description: None,
            parent: None,
            kind: None,
            external_docs: None,
            extensions: None,
        }
    }

    /// A builder that begins with a tag of the empty name. Takes no memory.
    pub fn builder(alloc: Global) -> TagBuilder
        ensures { (name : _) × (string_bytes name ≡ []) × (built_tag result ≡ empty_tag name) }
    {
        TagBuilder::new(alloc)
    }

    /// Whether the tag holds a fraction, at any depth of its extensions.
    #[tactic(auto, using(utoipa_base::proofs::SameDocs::by_docs))]
    pub fn has_fraction(&self) -> bool
        ensures { result ≡ has_fraction (tag_doc self.now) }
    {
        tag_rows!(table_has_fraction!(self))
    }

    /// Whether both are equal, extensions and all. Neither may hold a fraction.
    #[tactic(auto, using(utoipa_base::proofs::SameDocs::by_docs))]
    pub fn same(&self, other: &Tag) -> bool
        requires whole { has_fraction (tag_doc self.now) ≡ false }
        requires other_whole { has_fraction (tag_doc other.now) ≡ false }
        ensures { IsTrue result ↔ (tag_doc self.now ≡ tag_doc other.now) }
    {
        tag_rows!(same_table!(self, other))
    }
}

impl Documented for Tag {
    ghost use Rattle.utoipa_leaf.specs.Tag.{tag_doc};

    ghost kind = { named tag_object };

    ghost doc = { tag_doc };
}

impl Emit for Tag {
    fn emit<S: JsonSink>(&self, out: &mut S) -> Result<(), AllocError> {
        let names = tag_rows!(row_names!());
        let values = tag_rows!(row_values!(self));
        emit_table(out, names, &values, &self.extensions)
    }
}

impl Tree for Tag {
    ghost use Rattle.utoipa_leaf.specs.Tag.{tag_of_kind};

    ghost is_of_kind = { tag_of_kind };

    fn read_plain(alloc: Global, tree: &Value, readings: &mut Readings) -> Result<Tag, ReadFault> {
        let names = tag_rows!(row_names!());
        let (fields, extensions) = read_table(alloc, tree, "Tag", names, readings)?;
        Ok(tag_rows!(from_fields!(Tag, fields, extensions)))
    }

    fn try_clone(&self, alloc: Global) -> Result<Tag, AllocError> {
        tag_rows!(clone_table!(Tag, self, alloc))
    }
}

impl Place for Tag {
    fn is_schema() -> bool {
        false
    }
}

impl Same for Tag {
    fn has_fraction(&self) -> bool {
        Tag::has_fraction(self)
    }

    fn same(&self, other: &Tag) -> bool {
        Tag::same(self, other)
    }
}

/// Builds a [`Tag`].
#[derive(Debug, Drop)]
pub struct TagBuilder {
    tag: Tag,
}

impl TagBuilder {
    ghost use Rattle.utoipa_leaf.specs.Tag.{empty_tag, built_tag};

    /// Begins with a tag of the empty name, with nothing else. Takes no memory.
    pub fn new(alloc: Global) -> TagBuilder
        ensures { (name : _) × (string_bytes name ≡ []) × (built_tag result ≡ empty_tag name) }
    {
        TagBuilder {
            tag: Tag::of_name(String::new(alloc)),
        }
    }

    /// Sets the name.
    pub fn name(mut self, name: String) -> TagBuilder
        ensures { built_tag result ≡ record (built_tag self) { name = name } }
    {
        self.tag.name = name;
        self
    }

    /// Sets the summary.
    pub fn summary(mut self, summary: Option<String>) -> TagBuilder
        ensures { built_tag result ≡ record (built_tag self) { summary = summary } }
    {
        self.tag.summary = summary;
        self
    }

    /// Sets the description.
    pub fn description(mut self, description: Option<String>) -> TagBuilder
        ensures { built_tag result ≡ record (built_tag self) { description = description } }
    {
        self.tag.description = description;
        self
    }

    /// Sets the name of the tag in which this one is nested.
    pub fn parent(mut self, parent: Option<String>) -> TagBuilder
        ensures { built_tag result ≡ record (built_tag self) { parent = parent } }
    {
        self.tag.parent = parent;
        self
    }

    /// Sets what sort of tag this is.
    pub fn kind(mut self, kind: Option<String>) -> TagBuilder
        ensures { built_tag result ≡ record (built_tag self) { kind = kind } }
    {
        self.tag.kind = kind;
        self
    }

    /// Sets the further documentation.
    pub fn external_docs(mut self, external_docs: Option<ExternalDocs>) -> TagBuilder
        ensures { built_tag result ≡ record (built_tag self) { external_docs = external_docs } }
    {
        self.tag.external_docs = external_docs;
        self
    }

    /// Sets the specification extensions.
    pub fn extensions(mut self, extensions: Option<Extensions>) -> TagBuilder
        ensures { built_tag result ≡ record (built_tag self) { extensions = extensions } }
    {
        self.tag.extensions = extensions;
        self
    }

    /// The tag that was built.
    pub fn build(self) -> Tag
        ensures { result ≡ built_tag self }
    {
        self.tag
    }
}

impl From<Tag> for TagBuilder {
    ghost use Rattle.utoipa_leaf.specs.Tag.{built_tag};

    ghost from_gives = { λ tag builder. built_tag builder ≡ tag };

    fn from(tag: Tag) -> TagBuilder {
        TagBuilder { tag }
    }
}

impl From<TagBuilder> for Tag {
    ghost use Rattle.utoipa_leaf.specs.Tag.{built_tag};

    ghost from_gives = { λ builder tag. tag ≡ built_tag builder };

    fn from(builder: TagBuilder) -> Tag {
        builder.build()
    }
}
