//! Building documents.
ghost use Rattle.std.specs.Prelude.{◌≡◌, IfOk};
ghost use Rattle.std.specs.Iterator.{IsFinite};
ghost use Rattle.std.specs.Option.{ForSome};
ghost use Rattle.utoipa_base.specs.Lists.{EachIterator, IsFilledIfAny};
ghost use Rattle.utoipa_merging.specs.Merged.{AddsNothing};
ghost use Rattle.utoipa.specs.OpenApi.{built_openapi, openapi_doc, IsEmptyOpenApi};

use crate::document::OpenApi;
use std::alloc::{AllocError, Global};
use utoipa_base::{list_if_any, set};
use utoipa_components::Components;
use utoipa_leaf::external_docs::ExternalDocs;
use utoipa_leaf::info::Info;
use utoipa_leaf::server::Server;
use utoipa_leaf::tag::Tag;
use utoipa_leaf::version::OpenApiVersion;
use utoipa_paths::Paths;
use utoipa_security::security::SecurityRequirement;

/// Builds an [`OpenApi`].
#[derive(Debug, Drop)]
pub struct OpenApiBuilder {
    document: OpenApi,
}

impl OpenApiBuilder {
    /// Begins with a document of OpenAPI 3.1 of the empty title and the empty version, with no paths and nothing else. Takes no memory.
    pub fn new(alloc: Global) -> OpenApiBuilder
        ensures empty { IsEmptyOpenApi (built_openapi result) }
        // Merged into a document, it changes nothing.
        ensures adds_nothing { AddsNothing (openapi_doc (built_openapi result)) }
    {
        let info = Info::new(String::new(alloc), String::new(alloc));
        OpenApiBuilder {
            document: OpenApi::new(alloc, info, Paths::new(alloc)),
        }
    }

    /// Sets the version of the standard that the document follows.
    pub fn openapi(mut self, openapi: OpenApiVersion) -> OpenApiBuilder
        ensures { built_openapi result ≡ record (built_openapi self) { openapi = openapi } }
    {
        self.document.openapi = openapi;
        self
    }

    /// Sets the metadata about the API.
    pub fn info(mut self, info: Info) -> OpenApiBuilder
        ensures { built_openapi result ≡ record (built_openapi self) { info = info } }
    {
        self.document.info = info;
        self
    }

    /// Sets the servers at which the API is found. The iterator has to end.
    ///
    /// Fails where memory runs out, and then gives up what was built.
    pub fn servers<I: IntoIterator<Item = Server>>(
        mut self,
        alloc: Global,
        servers: Option<I>,
    ) -> Result<OpenApiBuilder, AllocError>
        requires can { ForSome servers (EachIterator I.into_iter_gives I.IntoIter.can_next) }
        requires ends { ForSome servers (EachIterator I.into_iter_gives (λ it. IsFinite (I.IntoIter.remaining it))) }
        ensures { IfOk result (λ b. (listed : _) × IsFilledIfAny I.into_iter_gives I.IntoIter.next_gives servers listed
            × (built_openapi b ≡ record (built_openapi self) { servers = listed })) }
    {
        let servers = list_if_any(alloc, servers);
        set(&mut self.document.servers, servers).and(Ok(self))
    }

    /// Sets the paths of the API.
    pub fn paths(mut self, paths: Paths) -> OpenApiBuilder
        ensures { built_openapi result ≡ record (built_openapi self) { paths = paths } }
    {
        self.document.paths = paths;
        self
    }

    /// Sets what the API may call by itself.
    pub fn webhooks(mut self, webhooks: Option<Paths>) -> OpenApiBuilder
        ensures { built_openapi result ≡ record (built_openapi self) { webhooks = webhooks } }
    {
        self.document.webhooks = webhooks;
        self
    }

    /// Sets what references in the document name.
    pub fn components(mut self, components: Option<Components>) -> OpenApiBuilder
        ensures { built_openapi result ≡ record (built_openapi self) { components = components } }
    {
        self.document.components = components;
        self
    }

    /// Sets the security requirements of all operations that have none of their own. The iterator has to end.
    ///
    /// Fails where memory runs out, and then gives up what was built.
    pub fn security<I: IntoIterator<Item = SecurityRequirement>>(
        mut self,
        alloc: Global,
        security: Option<I>,
    ) -> Result<OpenApiBuilder, AllocError>
        requires can { ForSome security (EachIterator I.into_iter_gives I.IntoIter.can_next) }
        requires ends { ForSome security (EachIterator I.into_iter_gives (λ it. IsFinite (I.IntoIter.remaining it))) }
        ensures { IfOk result (λ b. (listed : _)
            × IsFilledIfAny I.into_iter_gives I.IntoIter.next_gives security listed
            × (built_openapi b ≡ record (built_openapi self) { security = listed })) }
    {
        let security = list_if_any(alloc, security);
        set(&mut self.document.security, security).and(Ok(self))
    }

    /// Sets what is to be said of tags. The iterator has to end.
    ///
    /// Fails where memory runs out, and then gives up what was built.
    pub fn tags<I: IntoIterator<Item = Tag>>(
        mut self,
        alloc: Global,
        tags: Option<I>,
    ) -> Result<OpenApiBuilder, AllocError>
        requires can { ForSome tags (EachIterator I.into_iter_gives I.IntoIter.can_next) }
        requires ends { ForSome tags (EachIterator I.into_iter_gives (λ it. IsFinite (I.IntoIter.remaining it))) }
        ensures { IfOk result (λ b. (listed : _) × IsFilledIfAny I.into_iter_gives I.IntoIter.next_gives tags listed
            × (built_openapi b ≡ record (built_openapi self) { tags = listed })) }
    {
        let tags = list_if_any(alloc, tags);
        set(&mut self.document.tags, tags).and(Ok(self))
    }

    /// Sets the further documentation.
    pub fn external_docs(mut self, external_docs: Option<ExternalDocs>) -> OpenApiBuilder
        ensures { built_openapi result ≡ record (built_openapi self) { external_docs = external_docs } }
    {
        self.document.external_docs = external_docs;
        self
    }

    /// Sets the dialect of the document's schemas.
    pub fn json_schema_dialect(mut self, json_schema_dialect: Option<String>) -> OpenApiBuilder
        ensures { built_openapi result ≡ record (built_openapi self) { json_schema_dialect = json_schema_dialect } }
    {
        self.document.json_schema_dialect = json_schema_dialect;
        self
    }

    /// Sets the schema that the document follows, which is none where the text is empty.
    pub fn schema(mut self, schema: String) -> OpenApiBuilder
        ensures { built_openapi result ≡ record (built_openapi self) { schema = schema } }
    {
        self.document.schema = schema;
        self
    }

    /// Sets the URI of the document itself.
    pub fn self_uri(mut self, self_uri: Option<String>) -> OpenApiBuilder
        ensures { built_openapi result ≡ record (built_openapi self) { self_uri = self_uri } }
    {
        self.document.self_uri = self_uri;
        self
    }

    /// The document that was built.
    pub fn build(self) -> OpenApi
        ensures { result ≡ built_openapi self }
    {
        self.document
    }
}

impl From<OpenApi> for OpenApiBuilder {
    ghost from_gives = { λ document builder. built_openapi builder ≡ document };

    fn from(document: OpenApi) -> OpenApiBuilder {
        OpenApiBuilder { document }
    }
}

impl From<OpenApiBuilder> for OpenApi {
    ghost from_gives = { λ builder document. document ≡ built_openapi builder };

    fn from(builder: OpenApiBuilder) -> OpenApi {
        builder.build()
    }
}
