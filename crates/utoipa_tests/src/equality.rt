//! That `==` is equality, as a caller learns it from what the derives ensure. Each function is proved, and none is run.
ghost use Rattle.std.specs.Prelude.{◌≡◌, ◌↔◌, IsTrue};
ghost use Rattle.utoipa_schema_parts.specs.Format.{schema_format_doc};
ghost use Rattle.utoipa_schema_parts.specs.Types.{schema_type_doc};
ghost use Rattle.utoipa_security.specs.Scopes.{scopes_doc};

use std::cmp::Ordering;
use utoipa_base::{Deprecated, Number, Required};
use utoipa_leaf::path::{HttpMethod, ParameterIn, ParameterStyle};
use utoipa_leaf::version::OpenApiVersion;
use utoipa_schema_parts::{KnownFormat, SchemaFormat, SchemaType, TypeWord};
use utoipa_security::security::{HttpAuthScheme, Scopes};

/// Whether two methods are equal.
pub fn equal_methods(left: &HttpMethod, right: &HttpMethod) -> bool
    ensures { IsTrue result ↔ (left.now ≡ right.now) }
{
    left == right
}

/// How two methods are ordered: as equal where they are.
pub fn ordered_methods(left: &HttpMethod, right: &HttpMethod) -> Ordering
    ensures { (result ≡ Ordering.Equal) ↔ (left.now ≡ right.now) }
{
    left.cmp(right)
}

/// Whether two places of parameters are equal.
pub fn equal_places(left: &ParameterIn, right: &ParameterIn) -> bool
    ensures { IsTrue result ↔ (left.now ≡ right.now) }
{
    left == right
}

/// Whether two styles of parameters are equal.
pub fn equal_styles(left: &ParameterStyle, right: &ParameterStyle) -> bool
    ensures { IsTrue result ↔ (left.now ≡ right.now) }
{
    left == right
}

/// Whether two versions of OpenAPI are equal.
pub fn equal_versions(left: &OpenApiVersion, right: &OpenApiVersion) -> bool
    ensures { IsTrue result ↔ (left.now ≡ right.now) }
{
    left == right
}

/// Whether two types are equal.
pub fn equal_types(left: &TypeWord, right: &TypeWord) -> bool
    ensures { IsTrue result ↔ (left.now ≡ right.now) }
{
    left == right
}

/// Whether the types of two schemas are equal: whether they are one document.
pub fn equal_schema_types(left: &SchemaType, right: &SchemaType) -> bool
    ensures { IsTrue result ↔ (schema_type_doc left.now ≡ schema_type_doc right.now) }
{
    left == right
}

/// Whether two known formats are equal.
pub fn equal_known_formats(left: &KnownFormat, right: &KnownFormat) -> bool
    ensures { IsTrue result ↔ (left.now ≡ right.now) }
{
    left == right
}

/// Whether two formats are equal: whether they are one document.
pub fn equal_formats(left: &SchemaFormat, right: &SchemaFormat) -> bool
    ensures { IsTrue result ↔ (schema_format_doc left.now ≡ schema_format_doc right.now) }
{
    left == right
}

/// Whether two schemes of HTTP authentication are equal.
pub fn equal_schemes(left: &HttpAuthScheme, right: &HttpAuthScheme) -> bool
    ensures { IsTrue result ↔ (left.now ≡ right.now) }
{
    left == right
}

/// Whether the scopes of two flows are equal: whether they are one document.
pub fn equal_scopes(left: &Scopes, right: &Scopes) -> bool
    ensures { IsTrue result ↔ (scopes_doc left.now ≡ scopes_doc right.now) }
{
    left == right
}

/// Whether two flags that deprecate are equal.
pub fn equal_deprecations(left: &Deprecated, right: &Deprecated) -> bool
    ensures { IsTrue result ↔ (left.now ≡ right.now) }
{
    left == right
}

/// Whether two flags that require are equal.
pub fn equal_requirements(left: &Required, right: &Required) -> bool
    ensures { IsTrue result ↔ (left.now ≡ right.now) }
{
    left == right
}

/// Whether two numbers are equal: an `Int` never equals a `UInt`.
pub fn equal_numbers(left: &Number, right: &Number) -> bool
    ensures { IsTrue result ↔ (left.now ≡ right.now) }
{
    left == right
}
