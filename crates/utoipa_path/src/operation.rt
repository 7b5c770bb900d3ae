//! Operations of paths.
ghost use Rattle.std.specs.Prelude.{◌≡◌, IfOk, Some, option_map, string_cmp};
ghost use Rattle.std.specs.BTreeMap.{insert_entry};
ghost use Rattle.std.specs.Iterator.{IsFinite};
ghost use Rattle.std.specs.Option.{ForSome};
ghost use Rattle.utoipa_base.specs.Fill.{Pairs, put_each};
ghost use Rattle.utoipa_base.specs.Lists.{EachIterator, GivesAll, IsFilledIfAny};
ghost use Rattle.utoipa_base.specs.declared.refs.RefOr.{RefOr};
ghost use Rattle.utoipa_operation_parts.specs.Responses.{ByStatus};
ghost use Rattle.utoipa_path.specs.Builders.{built_operation, IsEmptyOperation, Callback, Callbacks};
ghost use Rattle.utoipa_path.specs.Lists.{IsOneMore, IsExtendedIfAny, own_place, reference_place};
ghost use Rattle.utoipa_path.specs.declared.types.Operation.{out-Operation};

use crate::lists::{add_one, add_places_or_clear};
pub use crate::types::{Callback, Operation};
use std::alloc::{AllocError, Global};
use std::collections::BTreeMap;
use utoipa_base::{Deprecated, Extensions, Ref, RefOr, list_if_any, put, put_each, set};
use utoipa_leaf::server::Server;
use utoipa_operation_parts::{Parameter, RequestBody, Response, Responses};
use utoipa_security::security::SecurityRequirement;

impl Operation {
    /// An operation of which nothing is said, with no response. Takes no memory.
    pub fn new(alloc: Global) -> Operation
        ensures { IsEmptyOperation (out-Operation result) }
    {
        Operation {
            tags: None,
            summary: None,
            description: None,
            operation_id: None,
            external_docs: None,
            parameters: None,
            request_body: None,
            responses: Responses::new(alloc),
            callbacks: BTreeMap::new(alloc),
            deprecated: None,
            security: None,
            servers: None,
            extensions: None,
        }
    }

    /// A builder that begins with an operation of which nothing is said. Takes no memory.
    pub fn builder(alloc: Global) -> OperationBuilder
        ensures { IsEmptyOperation (built_operation result) }
    {
        OperationBuilder::new(alloc)
    }
}

/// Builds an [`Operation`].
#[derive(Debug, Drop)]
pub struct OperationBuilder {
    operation: Operation,
}

impl OperationBuilder {
    /// Begins with an operation of which nothing is said, with no response. Takes no memory.
    pub fn new(alloc: Global) -> OperationBuilder
        ensures { IsEmptyOperation (built_operation result) }
    {
        OperationBuilder {
            operation: Operation::new(alloc),
        }
    }

    /// Sets the names of the tags that group the operation. The iterator has to end.
    ///
    /// Fails where memory runs out, and then gives up what was built.
    pub fn tags<I: IntoIterator<Item = String>>(
        mut self,
        alloc: Global,
        tags: Option<I>,
    ) -> Result<OperationBuilder, AllocError>
        requires can { ForSome tags (EachIterator I.into_iter_gives I.IntoIter.can_next) }
        requires ends { ForSome tags (EachIterator I.into_iter_gives (λ it. IsFinite (I.IntoIter.remaining it))) }
        ensures { IfOk result (λ b. (listed : _) × IsFilledIfAny I.into_iter_gives I.IntoIter.next_gives tags listed
            × (built_operation b ≡ record (built_operation self) { tags = listed })) }
    {
        let tags = list_if_any(alloc, tags);
        set(&mut self.operation.tags, tags).and(Ok(self))
    }

    /// Adds the name of a tag.
    ///
    /// Fails where memory runs out, and then gives up what was built.
    pub fn tag(mut self, alloc: Global, tag: String) -> Result<OperationBuilder, AllocError>
        ensures { IfOk result (λ b. (listed : _) × IsOneMore (built_operation self).tags tag listed
            × (built_operation b ≡ record (built_operation self) { tags = listed })) }
    {
        add_one(&mut self.operation.tags, alloc, tag).and(Ok(self))
    }

    /// Sets what the operation does, in short.
    pub fn summary(mut self, summary: Option<String>) -> OperationBuilder
        ensures { built_operation result ≡ record (built_operation self) { summary = summary } }
    {
        self.operation.summary = summary;
        self
    }

    /// Sets what the operation does.
    pub fn description(mut self, description: Option<String>) -> OperationBuilder
        ensures { built_operation result ≡ record (built_operation self) { description = description } }
    {
        self.operation.description = description;
        self
    }

    /// Sets the name that no other operation has.
    pub fn operation_id(mut self, operation_id: Option<String>) -> OperationBuilder
        ensures { built_operation result ≡ record (built_operation self) { operation_id = operation_id } }
    {
        self.operation.operation_id = operation_id;
        self
    }

    /// Adds each of some parameters to those that stand; with `None` there are no parameters any more. The iterator has to end.
    ///
    /// Fails where memory runs out, and then gives up what was built.
    pub fn parameters<I: IntoIterator<Item = Parameter>>(
        mut self,
        alloc: Global,
        parameters: Option<I>,
    ) -> Result<OperationBuilder, AllocError>
        requires can { ForSome parameters (EachIterator I.into_iter_gives I.IntoIter.can_next) }
        requires ends { ForSome parameters (EachIterator I.into_iter_gives
            (λ it. IsFinite (I.IntoIter.remaining it))) }
        ensures { IfOk result (λ b. (listed : _)
            × IsExtendedIfAny I.into_iter_gives I.IntoIter.next_gives
            (built_operation self).parameters parameters listed
            × (built_operation b ≡ record (built_operation self) { parameters = listed })) }
    {
        add_places_or_clear(&mut self.operation.parameters, alloc, parameters).and(Ok(self))
    }

    /// Adds a parameter.
    ///
    /// Fails where memory runs out, and then gives up what was built.
    pub fn parameter(
        mut self,
        alloc: Global,
        parameter: Parameter,
    ) -> Result<OperationBuilder, AllocError>
        ensures { IfOk result (λ b. (listed : _)
            × IsOneMore (built_operation self).parameters (own_place parameter) listed
            × (built_operation b ≡ record (built_operation self) { parameters = listed })) }
    {
        add_one(&mut self.operation.parameters, alloc, RefOr::T(parameter)).and(Ok(self))
    }

    /// Adds a reference to a parameter.
    ///
    /// Fails where memory runs out, and then gives up what was built.
    pub fn parameter_ref(
        mut self,
        alloc: Global,
        reference: Ref,
    ) -> Result<OperationBuilder, AllocError>
        ensures { IfOk result (λ b. (listed : _)
            × IsOneMore (built_operation self).parameters (reference_place reference) listed
            × (built_operation b ≡ record (built_operation self) { parameters = listed })) }
    {
        add_one(&mut self.operation.parameters, alloc, RefOr::Ref(reference)).and(Ok(self))
    }

    /// Sets what is sent to the operation.
    pub fn request_body(mut self, request_body: Option<RequestBody>) -> OperationBuilder
        ensures { built_operation result
            ≡ record (built_operation self) { request_body = option_map own_place request_body } }
    {
        self.operation.request_body = match request_body {
            Some(body) => Some(RefOr::T(body)),
            None => None,
        };
        self
    }

    /// Sets a reference to what is sent to the operation.
    pub fn request_body_ref(mut self, reference: Option<Ref>) -> OperationBuilder
        ensures { built_operation result
            ≡ record (built_operation self) { request_body = option_map reference_place reference } }
    {
        self.operation.request_body = match reference {
            Some(reference) => Some(RefOr::Ref(reference)),
            None => None,
        };
        self
    }

    /// Sets what the operation answers.
    pub fn responses(mut self, responses: Responses) -> OperationBuilder
        ensures { built_operation result ≡ record (built_operation self) { responses = responses } }
    {
        self.operation.responses = responses;
        self
    }

    /// Puts a response, or a reference to one, under its status code, in place of an earlier one of that code.
    ///
    /// Fails where memory runs out, and then gives up what was built.
    pub fn response(
        mut self,
        code: String,
        response: RefOr<Response>,
    ) -> Result<OperationBuilder, AllocError>
        ensures { IfOk result (λ b. (held : ByStatus)
            × (held.entries ≡ insert_entry string_cmp (built_operation self).responses.responses.entries code response)
            × (built_operation b
            ≡ record
            (built_operation self) { responses = record (built_operation self).responses { responses = held } })) }
    {
        put(&mut self.operation.responses.responses, code, response).and(Ok(self))
    }

    /// Puts a callback, or a reference to one, under its name, in place of an earlier one of that name.
    ///
    /// Fails where memory runs out, and then gives up what was built.
    pub fn callback(
        mut self,
        name: String,
        callback: RefOr<Callback>,
    ) -> Result<OperationBuilder, AllocError>
        ensures { IfOk result (λ b. (held : Callbacks)
            × (held.entries ≡ insert_entry string_cmp (built_operation self).callbacks.entries name callback)
            × (built_operation b ≡ record (built_operation self) { callbacks = held })) }
    {
        put(&mut self.operation.callbacks, name, callback).and(Ok(self))
    }

    /// Puts each of the callbacks under its name, in place of an earlier one of that name. The iterator has to end.
    ///
    /// Fails where memory runs out, and then gives up what was built.
    pub fn callbacks_from_iter<I: IntoIterator<Item = (String, RefOr<Callback>)>>(
        mut self,
        callbacks: I,
    ) -> Result<OperationBuilder, AllocError>
        requires can { EachIterator I.into_iter_gives I.IntoIter.can_next callbacks }
        requires ends { EachIterator I.into_iter_gives (λ it. IsFinite (I.IntoIter.remaining it)) callbacks }
        ensures { IfOk result (λ b. (given : Pairs (RefOr Callback)) × (held : Callbacks)
            × GivesAll I.into_iter_gives I.IntoIter.next_gives callbacks given
            × (held.entries ≡ put_each given (built_operation self).callbacks.entries)
            × (built_operation b ≡ record (built_operation self) { callbacks = held })) }
    {
        put_each(&mut self.operation.callbacks, callbacks).and(Ok(self))
    }

    /// Sets whether the operation should no longer be used.
    pub fn deprecated(mut self, deprecated: Option<Deprecated>) -> OperationBuilder
        ensures { built_operation result ≡ record (built_operation self) { deprecated = deprecated } }
    {
        self.operation.deprecated = deprecated;
        self
    }

    /// Sets the security requirements of the operation. The iterator has to end.
    ///
    /// Fails where memory runs out, and then gives up what was built.
    pub fn securities<I: IntoIterator<Item = SecurityRequirement>>(
        mut self,
        alloc: Global,
        securities: Option<I>,
    ) -> Result<OperationBuilder, AllocError>
        requires can { ForSome securities (EachIterator I.into_iter_gives I.IntoIter.can_next) }
        requires ends { ForSome securities (EachIterator I.into_iter_gives
            (λ it. IsFinite (I.IntoIter.remaining it))) }
        ensures { IfOk result (λ b. (listed : _)
            × IsFilledIfAny I.into_iter_gives I.IntoIter.next_gives securities listed
            × (built_operation b ≡ record (built_operation self) { security = listed })) }
    {
        let security = list_if_any(alloc, securities);
        set(&mut self.operation.security, security).and(Ok(self))
    }

    /// Adds a security requirement.
    ///
    /// Fails where memory runs out, and then gives up what was built.
    pub fn security(
        mut self,
        alloc: Global,
        security: SecurityRequirement,
    ) -> Result<OperationBuilder, AllocError>
        ensures { IfOk result (λ b. (listed : _) × IsOneMore (built_operation self).security security listed
            × (built_operation b ≡ record (built_operation self) { security = listed })) }
    {
        add_one(&mut self.operation.security, alloc, security).and(Ok(self))
    }

    /// Sets the servers of the operation. The iterator has to end.
    ///
    /// Fails where memory runs out, and then gives up what was built.
    pub fn servers<I: IntoIterator<Item = Server>>(
        mut self,
        alloc: Global,
        servers: Option<I>,
    ) -> Result<OperationBuilder, AllocError>
        requires can { ForSome servers (EachIterator I.into_iter_gives I.IntoIter.can_next) }
        requires ends { ForSome servers (EachIterator I.into_iter_gives (λ it. IsFinite (I.IntoIter.remaining it))) }
        ensures { IfOk result (λ b. (listed : _) × IsFilledIfAny I.into_iter_gives I.IntoIter.next_gives servers listed
            × (built_operation b ≡ record (built_operation self) { servers = listed })) }
    {
        let servers = list_if_any(alloc, servers);
        set(&mut self.operation.servers, servers).and(Ok(self))
    }

    /// Adds a server.
    ///
    /// Fails where memory runs out, and then gives up what was built.
    pub fn server(mut self, alloc: Global, server: Server) -> Result<OperationBuilder, AllocError>
        ensures { IfOk result (λ b. (listed : _) × IsOneMore (built_operation self).servers server listed
            × (built_operation b ≡ record (built_operation self) { servers = listed })) }
    {
        add_one(&mut self.operation.servers, alloc, server).and(Ok(self))
    }

    /// Sets the specification extensions.
    pub fn extensions(mut self, extensions: Option<Extensions>) -> OperationBuilder
        ensures { built_operation result ≡ record (built_operation self) { extensions = extensions } }
    {
        self.operation.extensions = extensions;
        self
    }

    /// The operation that was built.
    pub fn build(self) -> Operation
        ensures { out-Operation result ≡ built_operation self }
    {
        self.operation
    }
}

impl From<Operation> for OperationBuilder {
    ghost from_gives = { λ operation builder. built_operation builder ≡ out-Operation operation };

    fn from(operation: Operation) -> OperationBuilder {
        OperationBuilder { operation }
    }
}

impl From<OperationBuilder> for Operation {
    ghost from_gives = { λ builder operation. out-Operation operation ≡ built_operation builder };

    fn from(builder: OperationBuilder) -> Operation {
        builder.build()
    }
}
