//! Servers, and the variables of their URLs.
ghost use Rattle.std.specs.Prelude.{◌≡◌, ◌↔◌, [], false, None, Some, Option, IfOk, IsTrue, string_bytes, string_cmp};
ghost use Rattle.std.specs.Option.{ForSome};
ghost use Rattle.utoipa_base.specs.Kinds.{named, server_object, server_variable_object};
ghost use Rattle.utoipa_base.specs.WellFormed.{has_fraction};

use serde_json::Value;
use std::alloc::{AllocError, Global};
use std::collections::BTreeMap;
use utoipa_base::{
    Documented, Emit, Extensions, JsonSink, Place, ReadFault, Readings, Same, Tree, clone_table,
    emit_table, from_fields, list_if_any, read_table, row_names, row_values, same_table,
    table_has_fraction,
};

// The rows of a server, in the order of the members' names: mark, member, field.
macro_rules! server_rows {
    ($lines:ident!($($arguments:tt)*)) => {
        $lines! {
            $($arguments)*;
            optional "description" description,
            optional "name" name,
            required "url" url,
            optional "variables" variables,
        }
    };
}

/// A Server Object (OpenAPI 3.1, section 4.8.5): a connectivity target.
#[derive(Debug, Drop)]
pub struct Server {
    /// The URL of the target host. It may hold variables, named in braces, and may be relative.
    pub url: String,
    /// A description of the host.
    pub description: Option<String>,
    /// A unique name of the host, from OpenAPI 3.2 on.
    pub name: Option<String>,
    /// The variables of the URL, by their names.
    pub variables: Option<BTreeMap<String, ServerVariable>>,
    /// Specification extensions.
    pub extensions: Option<Extensions>,
}

// The rows of a server variable, in the order of the members' names: mark, member, field.
macro_rules! server_variable_rows {
    ($lines:ident!($($arguments:tt)*)) => {
        $lines! {
            $($arguments)*;
            required "default" default_value,
            optional "description" description,
            optional "enum" enum_values,
        }
    };
}

/// A Server Variable Object (OpenAPI 3.1, section 4.8.6): what is put in place of a variable of a server's URL.
#[derive(Debug, Drop)]
pub struct ServerVariable {
    /// The value that is used where no other is supplied: the member `default`.
    pub default_value: String,
    /// A description of the variable.
    pub description: Option<String>,
    /// The values that the variable may have: the member `enum`.
    pub enum_values: Option<Vec<String>>,
    /// Specification extensions.
    pub extensions: Option<Extensions>,
}

impl Server {
    ghost use Rattle.utoipa_leaf.specs.Server.{empty_server, built_server, server_doc};

    /// A server at a URL, with nothing else.
    pub fn new(url: String) -> Server
        ensures { result ≡ empty_server url }
    {
        Server {
            url,
            description: None,
            name: None,
            variables: None,
            extensions: None,
        }
    }

    /// A builder that begins with a server at the empty URL. Takes no memory.
    pub fn builder(alloc: Global) -> ServerBuilder
        ensures { (url : _) × (string_bytes url ≡ []) × (built_server result ≡ empty_server url) }
    {
        ServerBuilder::new(alloc)
    }

    /// Whether the server holds a fraction, at any depth of its extensions.
    #[tactic(auto, using(utoipa_base::proofs::SameDocs::by_docs))]
    pub fn has_fraction(&self) -> bool
        ensures { result ≡ has_fraction (server_doc self.now) }
    {
        server_rows!(table_has_fraction!(self))
    }

    /// Whether both are equal, extensions and all. Neither may hold a fraction.
    #[tactic(auto, using(utoipa_base::proofs::SameDocs::by_docs))]
    pub fn same(&self, other: &Server) -> bool
        requires whole { has_fraction (server_doc self.now) ≡ false }
        requires other_whole { has_fraction (server_doc other.now) ≡ false }
        ensures { IsTrue result ↔ (server_doc self.now ≡ server_doc other.now) }
    {
        server_rows!(same_table!(self, other))
    }
}

impl ServerVariable {
    ghost use Rattle.utoipa_leaf.specs.Server.{empty_server_variable, built_server_variable, server_variable_doc};

    /// A builder that begins with a variable whose value is the empty text. Takes no memory.
    pub fn builder(alloc: Global) -> ServerVariableBuilder
        ensures { (value : _) × (string_bytes value ≡ [])
            × (built_server_variable result ≡ empty_server_variable value) }
    {
        ServerVariableBuilder::new(alloc)
    }

    /// Whether the variable holds a fraction, at any depth of its extensions.
    #[tactic(auto, using(utoipa_base::proofs::SameDocs::by_docs))]
    pub fn has_fraction(&self) -> bool
        ensures { result ≡ has_fraction (server_variable_doc self.now) }
    {
        server_variable_rows!(table_has_fraction!(self))
    }

    /// Whether both are equal, extensions and all. Neither may hold a fraction.
    #[tactic(auto, using(utoipa_base::proofs::SameDocs::by_docs))]
    pub fn same(&self, other: &ServerVariable) -> bool
        requires whole { has_fraction (server_variable_doc self.now) ≡ false }
        requires other_whole { has_fraction (server_variable_doc other.now) ≡ false }
        ensures { IsTrue result ↔ (server_variable_doc self.now ≡ server_variable_doc other.now) }
    {
        server_variable_rows!(same_table!(self, other))
    }
}

impl Documented for ServerVariable {
    ghost use Rattle.utoipa_leaf.specs.Server.{server_variable_doc};

    ghost kind = { named server_variable_object };

    ghost doc = { server_variable_doc };
}

impl Emit for ServerVariable {
    fn emit<S: JsonSink>(&self, out: &mut S) -> Result<(), AllocError> {
        let names = server_variable_rows!(row_names!());
        let values = server_variable_rows!(row_values!(self));
        emit_table(out, names, &values, &self.extensions)
    }
}

impl Tree for ServerVariable {
    ghost use Rattle.utoipa_leaf.specs.Server.{server_variable_of_kind};

    ghost is_of_kind = { server_variable_of_kind };

    fn read_plain(
        alloc: Global,
        tree: &Value,
        readings: &mut Readings,
    ) -> Result<ServerVariable, ReadFault> {
        let names = server_variable_rows!(row_names!());
        let (fields, extensions) = read_table(alloc, tree, "ServerVariable", names, readings)?;
        Ok(server_variable_rows!(from_fields!(ServerVariable, fields, extensions)))
    }

    fn try_clone(&self, alloc: Global) -> Result<ServerVariable, AllocError> {
        server_variable_rows!(clone_table!(ServerVariable, self, alloc))
    }
}

impl Place for ServerVariable {
    fn is_schema() -> bool {
        false
    }
}

impl Documented for Server {
    ghost use Rattle.utoipa_leaf.specs.Server.{server_doc};

    ghost kind = { named server_object };

    ghost doc = { server_doc };
}

impl Emit for Server {
    fn emit<S: JsonSink>(&self, out: &mut S) -> Result<(), AllocError> {
        let names = server_rows!(row_names!());
        let values = server_rows!(row_values!(self));
        emit_table(out, names, &values, &self.extensions)
    }
}

impl Tree for Server {
    ghost use Rattle.utoipa_leaf.specs.Server.{server_of_kind};

    ghost is_of_kind = { server_of_kind };

    fn read_plain(
        alloc: Global,
        tree: &Value,
        readings: &mut Readings,
    ) -> Result<Server, ReadFault> {
        let names = server_rows!(row_names!());
        let (fields, extensions) = read_table(alloc, tree, "Server", names, readings)?;
        Ok(server_rows!(from_fields!(Server, fields, extensions)))
    }

    fn try_clone(&self, alloc: Global) -> Result<Server, AllocError> {
        server_rows!(clone_table!(Server, self, alloc))
    }
}

impl Place for Server {
    fn is_schema() -> bool {
        false
    }
}

impl Same for ServerVariable {
    fn has_fraction(&self) -> bool {
        ServerVariable::has_fraction(self)
    }

    fn same(&self, other: &ServerVariable) -> bool {
        ServerVariable::same(self, other)
    }
}

impl Same for Server {
    fn has_fraction(&self) -> bool {
        Server::has_fraction(self)
    }

    fn same(&self, other: &Server) -> bool {
        Server::same(self, other)
    }
}

/// Builds a [`Server`].
#[derive(Debug, Drop)]
pub struct ServerBuilder {
    server: Server,
}

impl ServerBuilder {
    ghost use Rattle.std.specs.BTreeMap.{insert_entry};
    ghost use Rattle.utoipa_base.specs.Views.{entries_or_none};
    ghost use Rattle.utoipa_leaf.specs.Server.{empty_server, built_server, Variables};

    /// Begins with a server at the empty URL, with nothing else. Takes no memory.
    pub fn new(alloc: Global) -> ServerBuilder
        ensures { (url : _) × (string_bytes url ≡ []) × (built_server result ≡ empty_server url) }
    {
        ServerBuilder {
            server: Server::new(String::new(alloc)),
        }
    }

    /// Sets the URL.
    pub fn url(mut self, url: String) -> ServerBuilder
        ensures { built_server result ≡ record (built_server self) { url = url } }
    {
        self.server.url = url;
        self
    }

    /// Sets the description.
    pub fn description(mut self, description: Option<String>) -> ServerBuilder
        ensures { built_server result ≡ record (built_server self) { description = description } }
    {
        self.server.description = description;
        self
    }

    /// Sets the name.
    pub fn name(mut self, name: Option<String>) -> ServerBuilder
        ensures { built_server result ≡ record (built_server self) { name = name } }
    {
        self.server.name = name;
        self
    }

    /// Puts a variable under its name, in place of an earlier one of that name.
    ///
    /// Fails where memory runs out, and then gives up what was built.
    pub fn parameter(
        mut self,
        alloc: Global,
        name: String,
        variable: ServerVariable,
    ) -> Result<ServerBuilder, AllocError>
        ensures { IfOk result (λ b. (variables : Variables)
            × (variables.entries
            ≡ insert_entry string_cmp (entries_or_none (built_server self).variables) name variable)
            × (built_server b ≡ record (built_server self) { variables = Some variables })) }
    {
        let mut variables = self.server.variables.take().unwrap_or(BTreeMap::new(alloc));
        drop(variables.insert(name, variable)?);
        self.server.variables = Some(variables);
        Ok(self)
    }

    /// Sets the specification extensions.
    pub fn extensions(mut self, extensions: Option<Extensions>) -> ServerBuilder
        ensures { built_server result ≡ record (built_server self) { extensions = extensions } }
    {
        self.server.extensions = extensions;
        self
    }

    /// The server that was built.
    pub fn build(self) -> Server
        ensures { result ≡ built_server self }
    {
        self.server
    }
}

impl From<Server> for ServerBuilder {
    ghost use Rattle.utoipa_leaf.specs.Server.{built_server};

    ghost from_gives = { λ server builder. built_server builder ≡ server };

    fn from(server: Server) -> ServerBuilder {
        ServerBuilder { server }
    }
}

impl From<ServerBuilder> for Server {
    ghost use Rattle.utoipa_leaf.specs.Server.{built_server};

    ghost from_gives = { λ builder server. server ≡ built_server builder };

    fn from(builder: ServerBuilder) -> Server {
        builder.build()
    }
}

/// Builds a [`ServerVariable`].
#[derive(Debug, Drop)]
pub struct ServerVariableBuilder {
    variable: ServerVariable,
}

impl ServerVariableBuilder {
    ghost use Rattle.std.specs.Iterator.{IsFinite};
    ghost use Rattle.utoipa_base.specs.Lists.{EachIterator, IsFilledIfAny};
    ghost use Rattle.utoipa_leaf.specs.Server.{empty_server_variable, built_server_variable, Values};

    /// Begins with a variable whose value is the empty text, with nothing else. Takes no memory.
    pub fn new(alloc: Global) -> ServerVariableBuilder
        ensures { (value : _) × (string_bytes value ≡ [])
            × (built_server_variable result ≡ empty_server_variable value) }
    {
        ServerVariableBuilder {
            variable: ServerVariable {
                default_value: String::new(alloc),
                description: None,
                enum_values: None,
                extensions: None,
            },
        }
    }

    /// Sets the value that is used where no other is supplied.
    pub fn default_value(mut self, default_value: String) -> ServerVariableBuilder
        ensures { built_server_variable result
            ≡ record (built_server_variable self) { default_value = default_value } }
    {
        self.variable.default_value = default_value;
        self
    }

    /// Sets the description.
    pub fn description(mut self, description: Option<String>) -> ServerVariableBuilder
        ensures { built_server_variable result ≡ record (built_server_variable self) { description = description } }
    {
        self.variable.description = description;
        self
    }

    /// Sets the values that the variable may have. The iterator has to end.
    ///
    /// Fails where memory runs out, and then gives up what was built.
    pub fn enum_values<I: IntoIterator<Item = String>>(
        mut self,
        alloc: Global,
        enum_values: Option<I>,
    ) -> Result<ServerVariableBuilder, AllocError>
        requires can { ForSome enum_values (EachIterator I.into_iter_gives I.IntoIter.can_next) }
        requires ends { ForSome enum_values (EachIterator I.into_iter_gives
            (λ it. IsFinite (I.IntoIter.remaining it))) }
        ensures { IfOk result (λ b. (listed : Option Values)
            × IsFilledIfAny I.into_iter_gives I.IntoIter.next_gives enum_values listed
            × (built_server_variable b ≡ record (built_server_variable self) { enum_values = listed })) }
    {
        self.variable.enum_values = list_if_any(alloc, enum_values)?;
        Ok(self)
    }

    /// Sets the specification extensions.
    pub fn extensions(mut self, extensions: Option<Extensions>) -> ServerVariableBuilder
        ensures { built_server_variable result ≡ record (built_server_variable self) { extensions = extensions } }
    {
        self.variable.extensions = extensions;
        self
    }

    /// The variable that was built.
    pub fn build(self) -> ServerVariable
        ensures { result ≡ built_server_variable self }
    {
        self.variable
    }
}

impl From<ServerVariable> for ServerVariableBuilder {
    ghost use Rattle.utoipa_leaf.specs.Server.{built_server_variable};

    ghost from_gives = { λ variable builder. built_server_variable builder ≡ variable };

    fn from(variable: ServerVariable) -> ServerVariableBuilder {
        ServerVariableBuilder { variable }
    }
}

impl From<ServerVariableBuilder> for ServerVariable {
    ghost use Rattle.utoipa_leaf.specs.Server.{built_server_variable};

    ghost from_gives = { λ builder variable. variable ≡ built_server_variable builder };

    fn from(builder: ServerVariableBuilder) -> ServerVariable {
        builder.build()
    }
}
