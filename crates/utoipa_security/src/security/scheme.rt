//! Security schemes of every type.
ghost use Rattle.std.specs.Prelude.{◌≡◌, codes, IfOk, OnOk};
ghost use Rattle.serde_json.specs.View.{view};
ghost use Rattle.utoipa_base.specs.Docs.{tagged_doc};
ghost use Rattle.utoipa_base.specs.Kinds.{named, security_scheme, mutual_tls_scheme};
ghost use Rattle.utoipa_base.specs.Events.{events};
ghost use Rattle.utoipa_base.specs.Reading.{read};
ghost use Rattle.utoipa_base.specs.Reads.{Reads};
ghost use Rattle.utoipa_base.specs.Values.{values};
ghost use Rattle.utoipa_base.specs.Vocabularies.{with_text};
ghost use Rattle.utoipa_base.specs.Writing.{write};
ghost use Rattle.utoipa_security.specs.Schemes.{mutual_tls_doc, type_of, scheme_object, scheme_doc, scheme_of_kind, scheme_type_text, scheme_kind, every_scheme_type};

use crate::security::api_key::ApiKey;
use crate::security::http::Http;
use crate::security::oauth2::OAuth2;
use crate::security::open_id_connect::OpenIdConnect;
use crate::security::scheme_type::{TypeValue, read_type};
use serde_json::Value;
use std::alloc::{AllocError, Global};
use utoipa_base::table::{OptionalField, OptionalValue};
use utoipa_base::{
    Deprecated, Documented, Emit, Extensions, JsonSink, Place, ReadFault, Readings, RefOr, Tree,
    clone_extensions, clone_option, emit_table, read_table,
};

// The members of a scheme of the type `mutualTLS`, in the order of their names.
const MUTUAL_TLS_NAMES: [&str; 2] = ["deprecated", "description"];

/// A Security Scheme Object (OpenAPI 3.1, section 4.8.27), by its member `type`.
#[derive(Debug, Drop)]
pub enum SecurityScheme {
    /// `oauth2`: The flows of OAuth 2.
    OAuth2(OAuth2),
    /// `apiKey`: A key in a header, the query or a cookie.
    ApiKey(ApiKey),
    /// `http`: HTTP authentication.
    Http(Http),
    /// `openIdConnect`: OpenID Connect Discovery.
    OpenIdConnect(OpenIdConnect),
    /// `mutualTLS`: A certificate of the client.
    MutualTls {
        /// A description of the scheme.
        description: Option<String>,
        /// Whether the scheme is deprecated, from OpenAPI 3.2 on.
        deprecated: Option<Deprecated>,
        /// Specification extensions.
        extensions: Option<Extensions>,
    },
}

#[derive(Clone, Copy)]
pub(crate) enum SchemeType {
    OAuth2,
    ApiKey,
    Http,
    OpenIdConnect,
    MutualTls,
}

fn scheme_type(word: &str) -> Option<SchemeType>
    ensures { result ≡ with_text scheme_type_text every_scheme_type word.now }
{
    match word {
        "oauth2" => Some(SchemeType::OAuth2),
        "apiKey" => Some(SchemeType::ApiKey),
        "http" => Some(SchemeType::Http),
        "openIdConnect" => Some(SchemeType::OpenIdConnect),
        "mutualTLS" => Some(SchemeType::MutualTls),
        _ => None,
    }
}

// The members of a scheme of the type `mutualTLS`.
fn read_mutual_tls(
    alloc: Global,
    tree: &Value,
    readings: &mut Readings,
) -> Result<SecurityScheme, ReadFault>
    ensures of_type { IfOk result (λ s. type_of s ≡ SchemeType.MutualTls) }
    ensures reads { Reads (read (named mutual_tls_scheme) (view tree.now)) scheme_object result
        readings.old readings.new (values (view tree.now)) }
{
    let names = &MUTUAL_TLS_NAMES;
    let (fields, extensions) = read_table(alloc, tree, "SecurityScheme", names, readings)?;
    let (OptionalField(deprecated), (OptionalField(description), ())) = fields;
    Ok(SecurityScheme::MutualTls {
        description,
        deprecated,
        extensions,
    })
}

// Sends a scheme of the type `mutualTLS`. Fails where the sink does; then some of it may have been sent.
fn emit_mutual_tls<S: JsonSink>(
    out: &mut S,
    description: &Option<String>,
    deprecated: &Option<Deprecated>,
    extensions: &Option<Extensions>,
) -> Result<(), AllocError>
    ensures { OnOk result (S.adds out.old (events (write (tagged_doc (codes "type") (codes "mutualTLS")
        (mutual_tls_doc description.now deprecated.now extensions.now)))) out.new) }
{
    let names = &["deprecated", "description", "type"];
    let last = (TypeValue("mutualTLS"), ());
    let values = (
        OptionalValue(deprecated),
        (OptionalValue(description), last),
    );
    emit_table(out, names, &values, extensions)
}

// The members of a scheme of one type.
fn read_scheme(
    kind: SchemeType,
    alloc: Global,
    tree: &Value,
    readings: &mut Readings,
) -> Result<SecurityScheme, ReadFault>
    ensures of_type { IfOk result (λ s. type_of s ≡ kind) }
    ensures reads { Reads (read (scheme_kind kind) (view tree.now)) scheme_object result
        readings.old readings.new (values (view tree.now)) }
{
    match kind {
        SchemeType::OAuth2 => Ok(SecurityScheme::OAuth2(OAuth2::read_plain(
            alloc, tree, readings,
        )?)),
        SchemeType::ApiKey => Ok(SecurityScheme::ApiKey(ApiKey::read_plain(
            alloc, tree, readings,
        )?)),
        SchemeType::Http => Ok(SecurityScheme::Http(Http::read_plain(alloc, tree, readings)?)),
        SchemeType::OpenIdConnect => Ok(SecurityScheme::OpenIdConnect(OpenIdConnect::read_plain(
            alloc, tree, readings,
        )?)),
        SchemeType::MutualTls => read_mutual_tls(alloc, tree, readings),
    }
}

impl Documented for SecurityScheme {
    ghost kind = { security_scheme };

    ghost doc = { scheme_doc };
}

impl Emit for SecurityScheme {
    fn emit<S: JsonSink>(&self, out: &mut S) -> Result<(), AllocError> {
        match self {
            SecurityScheme::OAuth2(scheme) => scheme.emit_typed(out, "oauth2"),
            SecurityScheme::ApiKey(scheme) => scheme.emit_typed(out, "apiKey"),
            SecurityScheme::Http(scheme) => scheme.emit_typed(out, "http"),
            SecurityScheme::OpenIdConnect(scheme) => { scheme.emit_typed(out, "openIdConnect") }
            SecurityScheme::MutualTls {
                description,
                deprecated,
                extensions,
            } => emit_mutual_tls(out, description, deprecated, extensions),
        }
    }
}

#[tactic(auto, using(crate::proofs::SchemeTypes::by_scheme_types))]
impl Tree for SecurityScheme {
    ghost is_of_kind = { scheme_of_kind };

    fn read_plain(
        alloc: Global,
        tree: &Value,
        readings: &mut Readings,
    ) -> Result<SecurityScheme, ReadFault> {
        let word = read_type(tree, "type", "SecurityScheme")?;
        match scheme_type(word) {
            Some(kind) => read_scheme(kind, alloc, tree, readings),
            None => Err(ReadFault::Word("SecurityScheme")),
        }
    }

    fn try_clone(&self, alloc: Global) -> Result<SecurityScheme, AllocError> {
        match self {
            SecurityScheme::OAuth2(scheme) => Ok(SecurityScheme::OAuth2(scheme.try_clone(alloc)?)),
            SecurityScheme::ApiKey(scheme) => Ok(SecurityScheme::ApiKey(scheme.try_clone(alloc)?)),
            SecurityScheme::Http(scheme) => Ok(SecurityScheme::Http(scheme.try_clone(alloc)?)),
            SecurityScheme::OpenIdConnect(scheme) => {
                Ok(SecurityScheme::OpenIdConnect(scheme.try_clone(alloc)?))
            }
            SecurityScheme::MutualTls {
                description,
                deprecated,
                extensions,
            } => Ok(SecurityScheme::MutualTls {
                description: clone_option(alloc, description)?,
                deprecated: clone_option(alloc, deprecated)?,
                extensions: clone_extensions(alloc, extensions)?,
            }),
        }
    }
}

impl Place for SecurityScheme {
    fn is_schema() -> bool {
        false
    }
}

/// The value itself.
impl From<SecurityScheme> for RefOr<SecurityScheme> {
    ghost use Rattle.utoipa_base.specs.declared.refs.RefOr.TheVariants as places;

    ghost from_gives = { λ value place. place ≡ places.T value };

    fn from(value: SecurityScheme) -> RefOr<SecurityScheme> {
        RefOr::T(value)
    }
}
