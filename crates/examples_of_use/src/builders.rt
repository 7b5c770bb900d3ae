//! A document made by builders, as of a shop that takes orders: two paths, each with an operation, and the schema and the security scheme that
//! these name. What takes memory is handed an allocator, and fails where there is none left.

use std::alloc::{AllocError, Global};
use std::iter;
use utoipa::openapi::path::{HttpMethod, Operation, OperationBuilder, Parameter, ParameterBuilder};
use utoipa::openapi::request_body::{RequestBody, RequestBodyExt};
use utoipa::openapi::response::ResponseExt;
use utoipa::openapi::schema::SchemaType;
use utoipa::openapi::security::{Http, HttpAuthScheme, SecurityRequirement, SecurityScheme};
use utoipa::openapi::{
    Components, ComponentsBuilder, Info, Object, ObjectBuilder, OpenApi, OpenApiBuilder, PathItem,
    Paths, PathsBuilder, RefOr, Response, TypeWord,
};

/// The document: what the shop is called, its paths, and the components that these name.
pub fn document(alloc: Global) -> Result<OpenApi, AllocError> {
    let title = String::from_str(alloc, "Orders")?;
    let info = Info::new(title, String::from_str(alloc, "1.0.0")?);
    let builder = OpenApiBuilder::new(alloc).info(info).paths(paths(alloc)?);
    Ok(builder.components(Some(components(alloc)?)).build())
}

/// Two paths: a template with a parameter, and one that stands for itself.
fn paths(alloc: Global) -> Result<Paths, AllocError> {
    let path = String::from_str(alloc, "/orders/{number}")?;
    let item = PathItem::new(alloc, HttpMethod::Get, find(alloc)?);
    let builder = PathsBuilder::new(alloc).path(alloc, path, item)?;
    let path = String::from_str(alloc, "/orders")?;
    let item = PathItem::new(alloc, HttpMethod::Post, place(alloc)?);
    Ok(builder.path(alloc, path, item)?.build())
}

/// An operation with two responses, one of which is told by the schema of a component, and with a parameter of the path.
fn find(alloc: Global) -> Result<Operation, AllocError> {
    let order = Response::new(alloc, String::from_str(alloc, "The order")?);
    let order = RefOr::T(order.json_schema_ref(alloc, "Order")?);
    let builder = OperationBuilder::new(alloc).response(String::from_str(alloc, "200")?, order)?;
    let none = Response::new(alloc, String::from_str(alloc, "No such order")?);
    let builder = builder.response(String::from_str(alloc, "404")?, RefOr::T(none))?;
    let number = Parameter::new(alloc, String::from_str(alloc, "number")?);
    let schema = Object::with_type(alloc, SchemaType::from(TypeWord::Integer));
    let number = ParameterBuilder::from(number).schema(Some(RefOr::from(schema)));
    Ok(builder.parameter(alloc, number.build())?.build())
}

/// An operation that asks for a token, and that is sent what the schema of a component tells.
fn place(alloc: Global) -> Result<Operation, AllocError> {
    let token = SecurityRequirement::new(alloc, String::from_str(alloc, "token")?, iter::empty())?;
    let builder = OperationBuilder::new(alloc).security(alloc, token)?;
    let placed = Response::new(alloc, String::from_str(alloc, "Placed")?);
    let builder = builder.response(String::from_str(alloc, "201")?, RefOr::T(placed))?;
    let body = RequestBody::new(alloc).json_schema_ref(alloc, "Order")?;
    Ok(builder.request_body(Some(body)).build())
}

/// A schema and a security scheme, each under the name by which the operations refer to it.
fn components(alloc: Global) -> Result<Components, AllocError> {
    let order = ObjectBuilder::new(alloc).required(String::from_str(alloc, "total")?)?;
    let total = Object::with_type(alloc, SchemaType::from(TypeWord::Integer));
    let order = order.property(String::from_str(alloc, "total")?, RefOr::from(total))?;
    let name = String::from_str(alloc, "Order")?;
    let builder = ComponentsBuilder::new(alloc).schema(name, RefOr::from(order))?;
    let token = RefOr::T(SecurityScheme::Http(Http::new(HttpAuthScheme::Bearer)));
    let builder = builder.security_scheme(String::from_str(alloc, "token")?, token)?;
    Ok(builder.build())
}
