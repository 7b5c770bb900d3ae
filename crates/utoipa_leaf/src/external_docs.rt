//! Documentation that stands elsewhere.
ghost use Rattle.std.specs.Prelude.{◌≡◌, ◌↔◌, [], false, IfOk, IsTrue, string_bytes};
ghost use Rattle.utoipa_base.specs.Kinds.{named, external_docs_object};
ghost use Rattle.utoipa_base.specs.WellFormed.{has_fraction};

use serde_json::Value;
use std::alloc::{AllocError, Global};
use utoipa_base::{
    Documented, Emit, Extensions, JsonSink, Place, ReadFault, Readings, Same, Tree, clone_table,
    emit_table, from_fields, read_table, row_names, row_values, same_table, table_has_fraction,
};

// The rows of external documentation, in the order of the members' names: mark, member, field.
macro_rules! external_docs_rows {
    ($lines:ident!($($arguments:tt)*)) => {
        $lines! {
            $($arguments)*;
            or_null "description" description,
            required "url" url,
        }
    };
}

/// An External Documentation Object (OpenAPI 3.1, section 4.8.11): documentation that stands elsewhere.
#[derive(Debug, Drop)]
pub struct ExternalDocs {
    /// The URL of the documentation.
    pub url: String,
    /// A description of the documentation. It is written as null where there is none.
    pub description: Option<String>,
    /// Specification extensions.
    pub extensions: Option<Extensions>,
}

impl ExternalDocs {
    ghost use Rattle.utoipa_leaf.specs.ExternalDocs.{empty_external_docs, built_external_docs, external_docs_doc};

    /// Documentation at a URL, with nothing else.
    ///
    /// Fails where memory runs out.
    pub fn new(alloc: Global, url: &str) -> Result<ExternalDocs, AllocError>
        ensures { IfOk result (λ docs. (text : _) × (string_bytes text ≡ url.now)
            × (docs ≡ empty_external_docs text)) }
    {
        Ok(ExternalDocs::at_url(String::from_str(alloc, url)?))
    }

    // Documentation at a URL, with nothing else.
    fn at_url(url: String) -> ExternalDocs
        ensures { result ≡ empty_external_docs url }
    {
        ExternalDocs {
            url,
            description: None,
            extensions: None,
        }
    }

    /// A builder that begins with documentation at the empty URL. Takes no memory.
    pub fn builder(alloc: Global) -> ExternalDocsBuilder
        ensures { (url : _) × (string_bytes url ≡ []) × (built_external_docs result ≡ empty_external_docs url) }
    {
        ExternalDocsBuilder::new(alloc)
    }

    /// Whether the documentation holds a fraction, at any depth of its extensions.
    #[tactic(auto, using(utoipa_base::proofs::SameDocs::by_docs))]
    pub fn has_fraction(&self) -> bool
        ensures { result ≡ has_fraction (external_docs_doc self.now) }
    {
        external_docs_rows!(table_has_fraction!(self))
    }

    /// Whether both are equal, extensions and all. Neither may hold a fraction.
    #[tactic(auto, using(utoipa_base::proofs::SameDocs::by_docs))]
    pub fn same(&self, other: &ExternalDocs) -> bool
        requires whole { has_fraction (external_docs_doc self.now) ≡ false }
        requires other_whole { has_fraction (external_docs_doc other.now) ≡ false }
        ensures { IsTrue result ↔ (external_docs_doc self.now ≡ external_docs_doc other.now) }
    {
        external_docs_rows!(same_table!(self, other))
    }
}

impl Documented for ExternalDocs {
    ghost use Rattle.utoipa_leaf.specs.ExternalDocs.{external_docs_doc};

    ghost kind = { named external_docs_object };

    ghost doc = { external_docs_doc };
}

impl Emit for ExternalDocs {
    fn emit<S: JsonSink>(&self, out: &mut S) -> Result<(), AllocError> {
        let names = external_docs_rows!(row_names!());
        let values = external_docs_rows!(row_values!(self));
        emit_table(out, names, &values, &self.extensions)
    }
}

impl Tree for ExternalDocs {
    ghost use Rattle.utoipa_leaf.specs.ExternalDocs.{external_docs_of_kind};

    ghost is_of_kind = { external_docs_of_kind };

    fn read_plain(
        alloc: Global,
        tree: &Value,
        readings: &mut Readings,
    ) -> Result<ExternalDocs, ReadFault> {
        let names = external_docs_rows!(row_names!());
        let (fields, extensions) = read_table(alloc, tree, "ExternalDocs", names, readings)?;
        Ok(external_docs_rows!(from_fields!(ExternalDocs, fields, extensions)))
    }

    fn try_clone(&self, alloc: Global) -> Result<ExternalDocs, AllocError> {
        external_docs_rows!(clone_table!(ExternalDocs, self, alloc))
    }
}

impl Place for ExternalDocs {
    fn is_schema() -> bool {
        false
    }
}

impl Same for ExternalDocs {
    fn has_fraction(&self) -> bool {
        ExternalDocs::has_fraction(self)
    }

    fn same(&self, other: &ExternalDocs) -> bool {
        ExternalDocs::same(self, other)
    }
}

/// Builds an [`ExternalDocs`].
#[derive(Debug, Drop)]
pub struct ExternalDocsBuilder {
    docs: ExternalDocs,
}

impl ExternalDocsBuilder {
    ghost use Rattle.utoipa_leaf.specs.ExternalDocs.{empty_external_docs, built_external_docs};

    /// Begins with documentation at the empty URL, with nothing else. Takes no memory.
    pub fn new(alloc: Global) -> ExternalDocsBuilder
        ensures { (url : _) × (string_bytes url ≡ []) × (built_external_docs result ≡ empty_external_docs url) }
    {
        ExternalDocsBuilder {
            docs: ExternalDocs::at_url(String::new(alloc)),
        }
    }

    /// Sets the URL.
    pub fn url(mut self, url: String) -> ExternalDocsBuilder
        ensures { built_external_docs result ≡ record (built_external_docs self) { url = url } }
    {
        self.docs.url = url;
        self
    }

    /// Sets the description.
    pub fn description(mut self, description: Option<String>) -> ExternalDocsBuilder
        ensures { built_external_docs result ≡ record (built_external_docs self) { description = description } }
    {
        self.docs.description = description;
        self
    }

    /// Sets the specification extensions.
    pub fn extensions(mut self, extensions: Option<Extensions>) -> ExternalDocsBuilder
        ensures { built_external_docs result ≡ record (built_external_docs self) { extensions = extensions } }
    {
        self.docs.extensions = extensions;
        self
    }

    /// The documentation that was built.
    pub fn build(self) -> ExternalDocs
        ensures { result ≡ built_external_docs self }
    {
        self.docs
    }
}

impl From<ExternalDocs> for ExternalDocsBuilder {
    ghost use Rattle.utoipa_leaf.specs.ExternalDocs.{built_external_docs};

    ghost from_gives = { λ docs builder. built_external_docs builder ≡ docs };

    fn from(docs: ExternalDocs) -> ExternalDocsBuilder {
        ExternalDocsBuilder { docs }
    }
}

impl From<ExternalDocsBuilder> for ExternalDocs {
    ghost use Rattle.utoipa_leaf.specs.ExternalDocs.{built_external_docs};

    ghost from_gives = { λ builder docs. docs ≡ built_external_docs builder };

    fn from(builder: ExternalDocsBuilder) -> ExternalDocs {
        builder.build()
    }
}
