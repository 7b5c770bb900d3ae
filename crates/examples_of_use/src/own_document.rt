//! The document of the gateway's own service, which tells of pets, assembled of types: a pet has a schema, looking one up is an operation of
//! a path, and the service has a document. What takes memory is handed an allocator, and fails where there is none left.
ghost use Rattle.std.specs.Prelude.{◌≡◌, ◌∷◌, [], IfOk, Some, codes, string_bytes};
ghost use Rattle.utoipa_base.specs.Docs.{some_doc, text_doc};
ghost use Rattle.utoipa_compose.specs.Made.{struct_of, text};
ghost use Rattle.utoipa_leaf.specs.declared.path.HttpMethod.TheVariants.{Get};
ghost use Rattle.utoipa_merging.specs.Slots.{field_at};

use std::alloc::{AllocError, Global};
use std::borrow::CowStr;
use utoipa::openapi::path::{HttpMethod, Operation, OperationBuilder};
use utoipa::openapi::response::ResponseExt;
use utoipa::openapi::{
    Components, ComponentsBuilder, Info, ObjectBuilder, OpenApiBuilder, Paths, PathsBuilder, RefOr,
    Response, Schema,
};
use utoipa::{ComposeFault, OpenApi, PartialSchema, Path, ToSchema, openapi};

/// A pet.
pub struct Pet {
    /// What the pet is called.
    pub name: String,
}

/// An object with a name, which has to be there.
impl PartialSchema for Pet {
    ghost described = { Some (struct_of (codes "name" ∷ []) ((codes "name", text) ∷ [])) };

    fn schema(alloc: Global) -> Result<RefOr<Schema>, ComposeFault> {
        let builder = ObjectBuilder::new(alloc).required(String::from_str(alloc, "name")?)?;
        let name = String::from_str(alloc, "name")?;
        let builder = builder.property(name, String::schema(alloc)?)?;
        Ok(RefOr::from(builder))
    }
}

impl ToSchema for Pet {
    ghost named = { codes "Pet" };

    ghost referred = { [] };

    fn name() -> CowStr<'static, Global> {
        CowStr::Borrowed("Pet")
    }

    fn schemas(
        _alloc: Global,
        _schemas: &mut Vec<(String, RefOr<Schema>)>,
    ) -> Result<(), AllocError> {
        Ok(())
    }
}

/// The operation that looks up a pet.
pub struct LookUp;

impl Path for LookUp {
    ghost listed = { Get ∷ [] };

    ghost named = { codes "/pet" };

    ghost IsDescribed = { λ operation. field_at (codes "operationId") operation ≡ some_doc (text_doc (codes "lookUp")) };

    fn methods(alloc: Global) -> Result<Vec<HttpMethod>, AllocError> {
        let mut methods = Vec::new(alloc);
        methods.push(HttpMethod::Get)?;
        Ok(methods)
    }

    fn path(alloc: Global) -> Result<String, AllocError> {
        String::from_str(alloc, "/pet")
    }

    fn operation(alloc: Global) -> Result<Operation, AllocError> {
        let builder = OperationBuilder::new(alloc);
        let builder = builder.response(String::from_str(alloc, "200")?, found(alloc)?)?;
        let name = String::from_str(alloc, "lookUp")?;
        Ok(builder.operation_id(Some(name)).build())
    }
}

// What is answered where there is such a pet.
fn found(alloc: Global) -> Result<RefOr<Response>, AllocError> {
    let response = Response::new(alloc, String::from_str(alloc, "The pet")?);
    Ok(RefOr::T(response.json_schema_ref(alloc, "Pet")?))
}

/// The gateway's own service.
pub struct Pets;

/// What the service is, its paths, and the schemas that these refer to.
impl OpenApi for Pets {
    ghost IsDescribed = { λ document. field_at (codes "title") (field_at (codes "info") document) ≡ text_doc (codes "Pets") };

    fn openapi(alloc: Global) -> Result<openapi::OpenApi, AllocError> {
        let builder = OpenApiBuilder::new(alloc).info(info(alloc)?);
        let builder = builder.paths(paths(alloc)?);
        Ok(builder.components(Some(components(alloc)?)).build())
    }
}

// What the service is called.
fn info(alloc: Global) -> Result<Info, AllocError>
    ensures { IfOk result (λ info. string_bytes info.title ≡ codes "Pets") }
{
    let title = String::from_str(alloc, "Pets")?;
    let version = String::from_str(alloc, "1.0.0")?;
    Ok(Info::new(title, version))
}

// One path, at which a pet is looked up.
fn paths(alloc: Global) -> Result<Paths, AllocError> {
    Ok(PathsBuilder::new(alloc).path_from::<LookUp>(alloc)?.build())
}

// The schemas by their names.
fn components(alloc: Global) -> Result<Components, AllocError> {
    match ComponentsBuilder::new(alloc).schema_from::<Pet>(alloc) {
        Ok(builder) => Ok(builder.build()),
        // The schema has no map, so nothing but memory can be wanting.
        Err(_) => Err(AllocError),
    }
}
