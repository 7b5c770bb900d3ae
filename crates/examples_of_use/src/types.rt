//! A document made of a type of the program: a book has a schema, to which a response refers by its name. What a derive writes elsewhere
//! stands here by hand; the ghost members say what the prover shows of it.
ghost use Rattle.std.specs.Prelude.{◌∷◌, [], Some, codes};
ghost use Rattle.utoipa_compose.specs.Made.{struct_of, text, unsigned32};

use std::alloc::{AllocError, Global};
use std::borrow::CowStr;
use utoipa::dev::Fields;
use utoipa::openapi::path::{HttpMethod, OperationBuilder};
use utoipa::openapi::response::ResponseExt;
use utoipa::openapi::{
    ComponentsBuilder, Info, OpenApi, OpenApiBuilder, PathItem, PathsBuilder, RefOr, Response,
    Schema,
};
use utoipa::{ComposeFault, PartialSchema, ToSchema};

/// A book.
pub struct Book {
    /// What it is called.
    pub title: String,
    /// How many pages it has.
    pub pages: u32,
}

/// An object with a title and a number of pages, both of which have to be there.
impl PartialSchema for Book {
    ghost described = { Some (struct_of (codes "title" ∷ codes "pages" ∷ []) ((codes "pages", unsigned32) ∷ (codes "title", text) ∷ [])) };

    fn schema(alloc: Global) -> Result<RefOr<Schema>, ComposeFault> {
        let fields = Fields::new(alloc).required(alloc, "title", String::schema(alloc)?)?;
        let fields = fields.required(alloc, "pages", u32::schema(alloc)?)?;
        Ok(fields.schema(alloc))
    }
}

/// Named `Book` among the components. The schema refers to no other.
impl ToSchema for Book {
    ghost named = { codes "Book" };

    ghost referred = { [] };

    fn name() -> CowStr<'static, Global> {
        CowStr::Borrowed("Book")
    }

    fn schemas(_: Global, _list: &mut Vec<(String, RefOr<Schema>)>) -> Result<(), AllocError> {
        Ok(())
    }
}

/// A document with an operation that answers a book, and with the schema of the type.
pub fn document(alloc: Global) -> Result<OpenApi, ComposeFault> {
    let title = String::from_str(alloc, "Books")?;
    let info = Info::new(title, String::from_str(alloc, "1.0.0")?);
    let path = String::from_str(alloc, "/book")?;
    let book = Response::new(alloc, String::from_str(alloc, "A book")?);
    let book = RefOr::T(book.json_schema_ref(alloc, "Book")?);
    let operation = OperationBuilder::new(alloc).response(String::from_str(alloc, "200")?, book)?;
    let item = PathItem::new(alloc, HttpMethod::Get, operation.build());
    let paths = PathsBuilder::new(alloc).path(alloc, path, item)?.build();
    let components = ComponentsBuilder::new(alloc).schemas_from::<Book>(alloc)?;
    let builder = OpenApiBuilder::new(alloc).info(info).paths(paths);
    Ok(builder.components(Some(components.build())).build())
}
