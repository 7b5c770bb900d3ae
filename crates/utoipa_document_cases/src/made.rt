//! What types make: operations of paths, documents with their tags, schemas and responses.
ghost use Rattle.std.specs.Prelude.{◌≡◌, ◌∷◌, [], ⊤, IfOk, String, codes};
ghost use Rattle.std.specs.Option.{unwrap_or};
ghost use Rattle.std.specs.declared.alloc.Global.{Global};
ghost use Rattle.utoipa_base.specs.Docs.{Doc};
ghost use Rattle.utoipa_base.specs.Views.{pairs_of};
ghost use Rattle.utoipa_leaf.specs.declared.path.HttpMethod.TheVariants.{Get, Put};
ghost use Rattle.utoipa_operation_parts.specs.Described.{described_place, named_parameter, referred_place};
ghost use Rattle.utoipa_operation_parts.specs.Parameter.{IsParameterOf, in_path, is_required};
ghost use Rattle.utoipa_operation_parts.specs.Traits.{response_place_doc, with_later};

use crate::merged::{read_text, shown};
use std::alloc::{AllocError, Global};
use std::collections::BTreeMap;
use utoipa::dev::{NestedApiConfig, PathConfig};
use utoipa::openapi::path::{HttpMethod, Operation, Parameter, ParameterIn};
use utoipa::openapi::{self, Components, MergeFault, Paths, Ref, RefOr, Response, Responses};
use utoipa::{IntoParams, IntoResponses, Path, ToResponse, openapi_of, operation_of};
use utoipa_base::{Tree, beside, put};
use utoipa_case_kit::{printed, refused};

/// The value that a text of this program reads as. Fails where memory runs out.
fn own<T: Tree>(alloc: Global, text: &str) -> Result<T, AllocError> {
    match read_text::<T>(alloc, text) {
        Ok(value) => Ok(value),
        Err(_) => Err(AllocError),
    }
}

// What was made, or that memory ran out.
fn or_memory<T: Drop>(made: Result<T, AllocError>) -> Result<T, MergeFault> {
    made.map_err(MergeFault::from)
}

// ---- operations of paths

/// An operation under two methods, of which one is told twice.
struct Task;

impl Path for Task {
    ghost listed = { Get ∷ Put ∷ Get ∷ [] };

    ghost named = { codes "/tasks" };

    ghost IsDescribed = { λ _. ⊤ };

    fn methods(alloc: Global) -> Result<Vec<HttpMethod>, AllocError> {
        let mut methods = Vec::new(alloc);
        methods.push(HttpMethod::Get)?;
        methods.push(HttpMethod::Put)?;
        methods.push(HttpMethod::Get)?;
        Ok(methods)
    }

    fn path(alloc: Global) -> Result<String, AllocError> {
        String::from_str(alloc, "/tasks")
    }

    fn operation(alloc: Global) -> Result<Operation, AllocError> {
        own::<Operation>(alloc, r#"{"operationId":"task","responses":{}}"#)
    }
}

/// An operation under no method.
struct NoMethod;

impl Path for NoMethod {
    ghost listed = { [] };

    ghost named = { codes "/none" };

    ghost IsDescribed = { λ _. ⊤ };

    fn methods(alloc: Global) -> Result<Vec<HttpMethod>, AllocError> {
        Ok(Vec::new(alloc))
    }

    fn path(alloc: Global) -> Result<String, AllocError> {
        String::from_str(alloc, "/none")
    }

    fn operation(alloc: Global) -> Result<Operation, AllocError> {
        Task::operation(alloc)
    }
}

/// What paths are written as, with the operation of the type of that name.
pub fn with_path_of(alloc: Global, name: &str, text: &str) -> Result<String, AllocError> {
    match read_text::<Paths>(alloc, text) {
        Ok(paths) => match name {
            "Task" => shown(alloc, with_path::<Task>(alloc, paths)),
            "NoMethod" => shown(alloc, with_path::<NoMethod>(alloc, paths)),
            _ => String::from_str(alloc, "no such type"),
        },
        Err(fault) => refused(alloc, &fault),
    }
}

fn with_path<P: Path>(alloc: Global, paths: Paths) -> Result<Paths, MergeFault> {
    match openapi::PathsBuilder::from(paths).path_from::<P>(alloc) {
        Ok(builder) => Ok(builder.build()),
        Err(refused) => Err(MergeFault::from(refused)),
    }
}

// ---- parameters

/// A parameter of which the provider says where it stands, if anything does.
struct Limit;

impl IntoParams for Limit {
    ghost described = { (λ place. named_parameter (codes "limit") (unwrap_or place in_path) is_required) ∷ [] };

    fn into_params<F: Fn() -> Option<ParameterIn>>(
        alloc: Global,
        parameter_in_provider: F,
    ) -> Result<Vec<Parameter>, AllocError> {
        let name = String::from_str(alloc, "limit")?;
        let place = parameter_in_provider();
        let parameter = placed(Parameter::new(alloc, name), place);
        list_of_one(alloc, parameter)
    }
}

// The parameter at the place, if there is one.
fn placed(parameter: Parameter, place: Option<ParameterIn>) -> Parameter
    ensures { (name : String Global) → IsParameterOf name in_path is_required parameter
        → IsParameterOf name (unwrap_or place in_path) is_required result }
{
    let mut parameter = parameter;
    if let Some(place) = place {
        parameter.parameter_in = place;
    }
    parameter
}

fn list_of_one<T: Drop>(alloc: Global, item: T) -> Result<Vec<T>, AllocError>
    ensures { IfOk result (λ list. list.items ≡ item ∷ []) }
{
    let mut list = Vec::new(alloc);
    list.push(item)?;
    Ok(list)
}

/// What the parameters of the type are written as, where the provider answers that place, or `none`.
pub fn parameters_in(alloc: Global, place: &str) -> Result<String, AllocError> {
    match place {
        "query" => printed(
            alloc,
            &Limit::into_params(alloc, || Some(ParameterIn::Query))?,
        ),
        "none" => printed(alloc, &Limit::into_params(alloc, || None)?),
        _ => String::from_str(alloc, "no such place"),
    }
}

// ---- tags

/// An operation with the tag `b`, and `a` beside it.
struct Tagged;

impl PathConfig for Tagged {
    ghost named = { codes "/tagged" };

    ghost listed = { [] };

    ghost tagged = { codes "a" ∷ [] };

    ghost IsDescribed = { λ _. ⊤ };

    fn path(alloc: Global) -> Result<String, AllocError> {
        String::from_str(alloc, "/tagged")
    }

    fn methods(alloc: Global) -> Result<Vec<HttpMethod>, AllocError> {
        Ok(Vec::new(alloc))
    }

    fn tags_and_operation(alloc: Global) -> Result<(Vec<&'static str>, Operation), AllocError> {
        let mut tags = Vec::new(alloc);
        tags.push("a")?;
        Ok((
            tags,
            own::<Operation>(alloc, r#"{"responses":{},"tags":["b"]}"#)?,
        ))
    }
}

/// An operation without tags, and none beside them.
struct Untagged;

impl PathConfig for Untagged {
    ghost named = { codes "/untagged" };

    ghost listed = { [] };

    ghost tagged = { [] };

    ghost IsDescribed = { λ _. ⊤ };

    fn path(alloc: Global) -> Result<String, AllocError> {
        String::from_str(alloc, "/untagged")
    }

    fn methods(alloc: Global) -> Result<Vec<HttpMethod>, AllocError> {
        Ok(Vec::new(alloc))
    }

    fn tags_and_operation(alloc: Global) -> Result<(Vec<&'static str>, Operation), AllocError> {
        Ok((
            Vec::new(alloc),
            own::<Operation>(alloc, r#"{"responses":{}}"#)?,
        ))
    }
}

/// What the operation of the type of that name is written as.
pub fn operation_of_type(alloc: Global, name: &str) -> Result<String, AllocError> {
    match name {
        "Tagged" => shown(alloc, or_memory(operation_of::<Tagged>(alloc))),
        "Untagged" => shown(alloc, or_memory(operation_of::<Untagged>(alloc))),
        _ => String::from_str(alloc, "no such type"),
    }
}

/// The document of each configuration: operations with and without tags, under methods that get further ones and under others.
fn document(alloc: Global) -> Result<openapi::OpenApi, AllocError> {
    own::<openapi::OpenApi>(
        alloc,
        r#"{"info":{"title":"t","version":"1"},"openapi":"3.1.0","paths":{"/a":{"get":{"responses":{}},"query":{"responses":{}}},"/b":{"additionalOperations":{"COPY":{"responses":{}}},"trace":{"responses":{},"tags":["o"]}}},"webhooks":{"w":{"get":{"responses":{}}}}}"#,
    )
}

/// The document with the tag `t`, of the module `m`.
struct TagAndModule;

impl NestedApiConfig for TagAndModule {
    ghost IsDescribed = { λ _. ⊤ };

    ghost tagged = { codes "t" ∷ [] };

    ghost module_path = { codes "m" };

    fn config(
        alloc: Global,
    ) -> Result<(openapi::OpenApi, Vec<&'static str>, &'static str), AllocError> {
        let mut tags = Vec::new(alloc);
        tags.push("t")?;
        Ok((document(alloc)?, tags, "m"))
    }
}

/// The document without tags, of the module `m`.
struct ModuleAlone;

impl NestedApiConfig for ModuleAlone {
    ghost IsDescribed = { λ _. ⊤ };

    ghost tagged = { [] };

    ghost module_path = { codes "m" };

    fn config(
        alloc: Global,
    ) -> Result<(openapi::OpenApi, Vec<&'static str>, &'static str), AllocError> {
        Ok((document(alloc)?, Vec::new(alloc), "m"))
    }
}

/// The document without tags, of no module.
struct NoTag;

impl NestedApiConfig for NoTag {
    ghost IsDescribed = { λ _. ⊤ };

    ghost tagged = { [] };

    ghost module_path = { [] };

    fn config(
        alloc: Global,
    ) -> Result<(openapi::OpenApi, Vec<&'static str>, &'static str), AllocError> {
        Ok((document(alloc)?, Vec::new(alloc), ""))
    }
}

/// What the document of the type of that name is written as.
pub fn document_of_type(alloc: Global, name: &str) -> Result<String, AllocError> {
    match name {
        "TagAndModule" => shown(alloc, or_memory(openapi_of::<TagAndModule>(alloc))),
        "ModuleAlone" => shown(alloc, or_memory(openapi_of::<ModuleAlone>(alloc))),
        "NoTag" => shown(alloc, or_memory(openapi_of::<NoTag>(alloc))),
        _ => String::from_str(alloc, "no such type"),
    }
}

// ---- responses and schemas

// A response of that description.
fn described(alloc: Global, description: &str) -> Result<RefOr<Response>, AllocError>
    ensures { IfOk result (λ response. response_place_doc response ≡ described_place description.now) }
{
    let response = Response::new(alloc, String::from_str(alloc, description)?);
    Ok(RefOr::T(response))
}

// A reference to a response.
fn referred(alloc: Global, location: &str) -> Result<RefOr<Response>, AllocError>
    ensures { IfOk result (λ response. response_place_doc response ≡ referred_place location.now) }
{
    let reference = Ref::new(alloc, String::from_str(alloc, location)?);
    Ok(RefOr::Ref(reference))
}

// Two values under their names.
fn both<T: Drop>(
    alloc: Global,
    first_name: &str,
    first: T,
    second_name: &str,
    second: T,
) -> Result<BTreeMap<String, T>, AllocError>
    ensures { IfOk result (λ made. (f : T → Doc) → pairs_of f made.entries
        ≡ with_later [] ((first_name.now, f first) ∷ (second_name.now, f second) ∷ [])) }
{
    let mut map = BTreeMap::new(alloc);
    let first_key = String::from_str(alloc, first_name)?;
    put(&mut map, first_key, first)?;
    let second_key = String::from_str(alloc, second_name)?;
    put(&mut map, second_key, second)?;
    Ok(map)
}

/// What is answered where all is well.
struct Done;

impl IntoResponses for Done {
    ghost answered = { with_later [] ((codes "200", described_place (codes "done")) ∷ (codes "400", described_place (codes "not done")) ∷ []) };

    fn responses(alloc: Global) -> Result<BTreeMap<String, RefOr<Response>>, AllocError> {
        let (done, not_done) = beside(described(alloc, "done")?, described(alloc, "not done"))?;
        both(alloc, "200", done, "400", not_done)
    }
}

/// What is answered where something fails.
struct Failed;

impl IntoResponses for Failed {
    ghost answered = { with_later [] ((codes "400", described_place (codes "failed")) ∷ (codes "500", referred_place (codes "r")) ∷ []) };

    fn responses(alloc: Global) -> Result<BTreeMap<String, RefOr<Response>>, AllocError> {
        let (failed, reference) = beside(described(alloc, "failed")?, referred(alloc, "r"))?;
        both(alloc, "400", failed, "500", reference)
    }
}

/// What responses are written as, with those of the type of that name.
pub fn with_responses_of(alloc: Global, name: &str, text: &str) -> Result<String, AllocError> {
    match read_text::<Responses>(alloc, text) {
        Ok(responses) => match name {
            "()" => shown(alloc, with_responses::<()>(alloc, responses)),
            "Done" => shown(alloc, with_responses::<Done>(alloc, responses)),
            "Result<Done, Failed>" => {
                shown(
                    alloc,
                    with_responses::<Result<Done, Failed>>(alloc, responses),
                )
            }
            _ => String::from_str(alloc, "no such type"),
        },
        Err(fault) => refused(alloc, &fault),
    }
}

fn with_responses<R: IntoResponses>(
    alloc: Global,
    responses: Responses,
) -> Result<Responses, MergeFault> {
    match openapi::ResponsesBuilder::from(responses).responses_from_into_responses::<R>(alloc) {
        Ok(builder) => Ok(builder.build()),
        Err(refused) => Err(MergeFault::from(refused)),
    }
}

/// A response that has a name.
struct NotFound;

impl<'r> ToResponse<'r> for NotFound {
    ghost named = { codes "NotFound" };

    ghost described = { described_place (codes "none there") };

    fn response(alloc: Global) -> Result<(&'r str, RefOr<Response>), AllocError> {
        Ok(("NotFound", described(alloc, "none there")?))
    }
}

/// What components are written as, with the schema or the response of the type of that name.
pub fn with_component_of(alloc: Global, name: &str, text: &str) -> Result<String, AllocError> {
    match read_text::<Components>(alloc, text) {
        Ok(components) => match name {
            "i32" => with_schema(alloc, components),
            "NotFound" => shown(alloc, with_response(alloc, components)),
            _ => String::from_str(alloc, "no such type"),
        },
        Err(fault) => refused(alloc, &fault),
    }
}

fn with_schema(alloc: Global, components: Components) -> Result<String, AllocError> {
    match openapi::ComponentsBuilder::from(components).schema_from::<i32>(alloc) {
        Ok(builder) => shown(alloc, Ok(builder.build())),
        Err(fault) => format!(in alloc; "refused: {fault}"),
    }
}

fn with_response(alloc: Global, components: Components) -> Result<Components, MergeFault> {
    match openapi::ComponentsBuilder::from(components).response_from::<NotFound>(alloc) {
        Ok(builder) => Ok(builder.build()),
        Err(refused) => Err(MergeFault::from(refused)),
    }
}
