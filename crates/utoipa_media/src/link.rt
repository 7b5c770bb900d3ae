//! Links from a response to a further operation.
ghost use Rattle.std.specs.Prelude.{◌≡◌, IfOk, false, string_cmp};
ghost use Rattle.std.specs.BTreeMap.{insert_entry};
ghost use Rattle.utoipa_base.specs.Kinds.{named, link_object};

use serde_json::Value;
use std::alloc::{AllocError, Global};
use std::collections::BTreeMap;
use utoipa_base::{
    Documented, Emit, Extensions, JsonSink, Place, ReadFault, Readings, RefOr, Tree, clone_table,
    emit_table, from_fields, put, read_table, row_names, row_values,
};
use utoipa_leaf::server::Server;

// The rows of a link, in the order of the members' names: mark, member, field.
macro_rules! link_rows {
    ($lines:ident!($($arguments:tt)*)) => {
        $lines! {
            $($arguments)*;
            defaulted "description" description,
            defaulted "operationId" operation_id,
            defaulted "operationRef" operation_ref,
            defaulted "parameters" parameters,
            optional "requestBody" request_body,
            optional "server" server,
        }
    };
}

/// A Link Object (OpenAPI 3.1, section 4.8.20): an operation that can follow a response, and what it is called with.
#[derive(Debug, Drop)]
pub struct Link {
    /// A URI of the operation, the member `operationRef`; empty where there is none. It excludes `operation_id`.
    pub operation_ref: String,
    /// The name of the operation, the member `operationId`; empty where there is none. It excludes `operation_ref`.
    pub operation_id: String,
    /// The values of the operation's parameters, by their names. A value may be a runtime expression.
    pub parameters: BTreeMap<String, Value>,
    /// The body that the operation is called with, which may be a runtime expression: the member `requestBody`.
    pub request_body: Option<Value>,
    /// A description of the link; empty where there is none.
    pub description: String,
    /// The server that the operation is called at.
    pub server: Option<Server>,
    /// Specification extensions.
    pub extensions: Option<Extensions>,
}

impl Link {
    ghost use Rattle.utoipa_media.specs.Link.{built_link, IsEmptyLink};

    /// A builder that begins with a link of which nothing is said. Takes no memory.
    pub fn builder(alloc: Global) -> LinkBuilder
        ensures { IsEmptyLink (built_link result) }
    {
        LinkBuilder::new(alloc)
    }
}

impl Documented for Link {
    ghost use Rattle.utoipa_media.specs.Link.{link_doc};

    ghost kind = { named link_object };

    ghost doc = { link_doc };
}

impl Emit for Link {
    fn emit<S: JsonSink>(&self, out: &mut S) -> Result<(), AllocError> {
        let names = link_rows!(row_names!());
        let values = link_rows!(row_values!(self));
        emit_table(out, names, &values, &self.extensions)
    }
}

impl Tree for Link {
    ghost use Rattle.utoipa_media.specs.Link.{link_of_kind};

    ghost is_of_kind = { link_of_kind };

    fn read_plain(alloc: Global, tree: &Value, readings: &mut Readings) -> Result<Link, ReadFault> {
        let names = link_rows!(row_names!());
        let (fields, extensions) = read_table(alloc, tree, "Link", names, readings)?;
        Ok(link_rows!(from_fields!(Link, fields, extensions)))
    }

    fn try_clone(&self, alloc: Global) -> Result<Link, AllocError> {
        link_rows!(clone_table!(Link, self, alloc))
    }
}

/// A link is no schema.
impl Place for Link {
    fn is_schema() -> bool {
        false
    }
}

/// Builds a [`Link`].
#[derive(Debug, Drop)]
pub struct LinkBuilder {
    link: Link,
}

impl LinkBuilder {
    ghost use Rattle.utoipa_media.specs.Link.{built_link, IsEmptyLink, Parameters};

    /// Begins with a link of which nothing is said: its texts are empty. Takes no memory.
    pub fn new(alloc: Global) -> LinkBuilder
        ensures { IsEmptyLink (built_link result) }
    {
        LinkBuilder {
            link: Link {
                operation_ref: String::new(alloc),
                operation_id: String::new(alloc),
                parameters: BTreeMap::new(alloc),
                request_body: None,
                description: String::new(alloc),
                server: None,
                extensions: None,
            },
        }
    }

    /// Sets the URI of the operation; the empty text leaves it unsaid.
    pub fn operation_ref(mut self, operation_ref: String) -> LinkBuilder
        ensures { built_link result ≡ record (built_link self) { operation_ref = operation_ref } }
    {
        self.link.operation_ref = operation_ref;
        self
    }

    /// Sets the name of the operation; the empty text leaves it unsaid.
    pub fn operation_id(mut self, operation_id: String) -> LinkBuilder
        ensures { built_link result ≡ record (built_link self) { operation_id = operation_id } }
    {
        self.link.operation_id = operation_id;
        self
    }

    /// Puts the value of a parameter under the parameter's name, in place of an earlier one of that name.
    ///
    /// Fails where memory runs out, and then gives up what was built.
    pub fn parameter(mut self, name: String, value: Value) -> Result<LinkBuilder, AllocError>
        ensures { IfOk result (λ b. (parameters : Parameters)
            × (parameters.entries ≡ insert_entry string_cmp (built_link self).parameters.entries name value)
            × (built_link b ≡ record (built_link self) { parameters = parameters })) }
    {
        put(&mut self.link.parameters, name, value).and(Ok(self))
    }

    /// Sets the body that the operation is called with.
    pub fn request_body(mut self, request_body: Option<Value>) -> LinkBuilder
        ensures { built_link result ≡ record (built_link self) { request_body = request_body } }
    {
        self.link.request_body = request_body;
        self
    }

    /// Sets the description; the empty text leaves it unsaid.
    pub fn description(mut self, description: String) -> LinkBuilder
        ensures { built_link result ≡ record (built_link self) { description = description } }
    {
        self.link.description = description;
        self
    }

    /// Sets the server that the operation is called at.
    pub fn server(mut self, server: Option<Server>) -> LinkBuilder
        ensures { built_link result ≡ record (built_link self) { server = server } }
    {
        self.link.server = server;
        self
    }

    /// Sets the specification extensions.
    pub fn extensions(mut self, extensions: Option<Extensions>) -> LinkBuilder
        ensures { built_link result ≡ record (built_link self) { extensions = extensions } }
    {
        self.link.extensions = extensions;
        self
    }

    /// The link that was built.
    pub fn build(self) -> Link
        ensures { result ≡ built_link self }
    {
        self.link
    }
}

impl From<Link> for LinkBuilder {
    ghost use Rattle.utoipa_media.specs.Link.{built_link};

    ghost from_gives = { λ link builder. built_link builder ≡ link };

    fn from(link: Link) -> LinkBuilder {
        LinkBuilder { link }
    }
}

impl From<LinkBuilder> for Link {
    ghost use Rattle.utoipa_media.specs.Link.{built_link};

    ghost from_gives = { λ builder link. link ≡ built_link builder };

    fn from(builder: LinkBuilder) -> Link {
        builder.build()
    }
}

/// The value itself.
impl From<Link> for RefOr<Link> {
    ghost use Rattle.utoipa_base.specs.declared.refs.RefOr.TheVariants as places;

    ghost from_gives = { λ value place. place ≡ places.T value };

    fn from(value: Link) -> RefOr<Link> {
        RefOr::T(value)
    }
}
