//! Schemes of HTTP authentication.
ghost use Rattle.std.specs.Prelude.{◌≡◌, None, Some, codes, refl, OnOk};
ghost use Rattle.utoipa_base.specs.Docs.{tagged_doc};
ghost use Rattle.utoipa_base.specs.Kinds.{named, http_scheme, word_of, http_auth_scheme};
ghost use Rattle.utoipa_base.specs.Events.{events};
ghost use Rattle.utoipa_base.specs.Writing.{write};

use crate::security::row_lists::row_values;
use serde_json::Value;
use std::alloc::{AllocError, Global};
use std::fmt;
use utoipa_base::{
    Deprecated, Documented, Emit, Extensions, JsonSink, Place, ReadFault, Readings, Tree, Word,
    clone_table, emit_table, emit_word, from_fields, read_table, read_word, row_names,
};

/// The name of an HTTP authentication scheme: the member `scheme` of a Security Scheme Object of the type `http`
/// (OpenAPI 3.1, section 4.8.27).
#[derive(Clone, Copy, Debug, Default, Drop, PartialEq, Eq)]
pub enum HttpAuthScheme {
    /// `basic`: A name and a password.
    #[default]
    Basic,
    /// `bearer`: A token.
    Bearer,
    /// `digest`: A digest of a shared secret.
    Digest,
    /// `hoba`: A signature bound to the origin.
    Hoba,
    /// `mutual`: Both sides prove that they know a password.
    Mutual,
    /// `negotiate`: A security mechanism that both sides agree on.
    Negotiate,
    /// `oauth`: A signed request of OAuth 1.0.
    OAuth,
    /// `scram-sha-1`: A salted challenge by SHA-1.
    ScramSha1,
    /// `scram-sha-256`: A salted challenge by SHA-256.
    ScramSha256,
    /// `vapid`: The identification of an application server.
    Vapid,
}

impl Word for HttpAuthScheme {
    ghost use Rattle.utoipa_security.specs.Http.{auth_scheme_text, every_auth_scheme, auth_scheme_by_text};

    ghost vocabulary = { http_auth_scheme };

    ghost every = { every_auth_scheme };

    ghost spelling = { auth_scheme_text };

    ghost are_words = { refl };

    ghost found_by_text = { auth_scheme_by_text };

    fn lookup(text: &str) -> Option<HttpAuthScheme> {
        match text {
            "basic" => Some(HttpAuthScheme::Basic),
            "bearer" => Some(HttpAuthScheme::Bearer),
            "digest" => Some(HttpAuthScheme::Digest),
            "hoba" => Some(HttpAuthScheme::Hoba),
            "mutual" => Some(HttpAuthScheme::Mutual),
            "negotiate" => Some(HttpAuthScheme::Negotiate),
            "oauth" => Some(HttpAuthScheme::OAuth),
            "scram-sha-1" => Some(HttpAuthScheme::ScramSha1),
            "scram-sha-256" => Some(HttpAuthScheme::ScramSha256),
            "vapid" => Some(HttpAuthScheme::Vapid),
            _ => None,
        }
    }

    fn as_text(&self) -> &'static str {
        match self {
            HttpAuthScheme::Basic => "basic",
            HttpAuthScheme::Bearer => "bearer",
            HttpAuthScheme::Digest => "digest",
            HttpAuthScheme::Hoba => "hoba",
            HttpAuthScheme::Mutual => "mutual",
            HttpAuthScheme::Negotiate => "negotiate",
            HttpAuthScheme::OAuth => "oauth",
            HttpAuthScheme::ScramSha1 => "scram-sha-1",
            HttpAuthScheme::ScramSha256 => "scram-sha-256",
            HttpAuthScheme::Vapid => "vapid",
        }
    }
}

/// The word.
impl fmt::Display for HttpAuthScheme {
    ghost use Rattle.utoipa_security.specs.Http.{auth_scheme_text};

    ghost output = { λ word. Some (auth_scheme_text word) };

    fn fmt<W: fmt::Write>(&self, f: &mut fmt::Formatter<W>) -> fmt::Result {
        f.write_str(self.as_text())
    }
}

impl Documented for HttpAuthScheme {
    ghost use Rattle.utoipa_security.specs.Http.{auth_scheme_doc};

    ghost kind = { word_of http_auth_scheme };

    ghost doc = { auth_scheme_doc };
}

#[tactic(auto, using(utoipa_base::proofs::ByWords::by_words))]
impl Emit for HttpAuthScheme {
    fn emit<S: JsonSink>(&self, out: &mut S) -> Result<(), AllocError> {
        emit_word(out, self)
    }
}

#[tactic(auto, using(utoipa_base::proofs::ByWords::by_words))]
impl Tree for HttpAuthScheme {
    ghost use Rattle.utoipa_security.specs.Http.{auth_scheme_of_kind};

    ghost is_of_kind = { auth_scheme_of_kind };

    fn read_plain(
        _alloc: Global,
        tree: &Value,
        _readings: &mut Readings,
    ) -> Result<HttpAuthScheme, ReadFault> {
        read_word(tree, "HttpAuthScheme")
    }

    fn try_clone(&self, _alloc: Global) -> Result<HttpAuthScheme, AllocError> {
        Ok(*self)
    }
}

impl Place for HttpAuthScheme {
    fn is_schema() -> bool {
        false
    }
}

// The rows of a scheme of HTTP authentication, in the order of the members' names: mark, member, field. Others may
// stand last.
macro_rules! http_rows {
    ($lines:ident!($($arguments:tt)*) $($last:tt)*) => {
        $lines! {
            $($arguments)*;
            optional "bearerFormat" bearer_format,
            optional "deprecated" deprecated,
            optional "description" description,
            required "scheme" scheme,
            $($last)*
        }
    };
}

/// A Security Scheme Object of the type `http` (OpenAPI 3.1, section 4.8.27), without its member `type`.
#[derive(Debug, Default, Drop)]
pub struct Http {
    /// The name of the authentication scheme.
    pub scheme: HttpAuthScheme,
    /// A hint on how a bearer token is formed.
    pub bearer_format: Option<String>,
    /// A description of the scheme.
    pub description: Option<String>,
    /// Whether the scheme is deprecated, from OpenAPI 3.2 on.
    pub deprecated: Option<Deprecated>,
    /// Specification extensions.
    pub extensions: Option<Extensions>,
}

impl Http {
    ghost use Rattle.utoipa_security.specs.Http.{made_http, built_http, http_doc};

    /// A scheme of a name, with nothing else.
    pub fn new(scheme: HttpAuthScheme) -> Http
        ensures { result ≡ made_http scheme }
    {
        Http {
            scheme,
            bearer_format: None,
            description: None,
            deprecated: None,
            extensions: None,
        }
    }

    /// A builder that begins with the scheme `basic`.
    pub fn builder() -> HttpBuilder
        ensures { built_http result ≡ made_http HttpAuthScheme.Basic }
    {
        HttpBuilder::new()
    }

    /// Sends the scheme with its member `type`, of this word. Fails where the sink does; then some of it may have been sent.
    pub(crate) fn emit_typed<S: JsonSink>(&self, out: &mut S, word: &str) -> Result<(), AllocError>
        ensures { OnOk result (S.adds out.old
            (events (write (tagged_doc (codes "type") word.now (http_doc self.now)))) out.new) }
    {
        let names = http_rows!(row_names!() tag "type" word,);
        let values = http_rows!(row_values!(self) tag "type" word,);
        emit_table(out, names, &values, &self.extensions)
    }
}

impl Documented for Http {
    ghost use Rattle.utoipa_security.specs.Http.{http_doc};

    ghost kind = { named http_scheme };

    ghost doc = { http_doc };
}

impl Emit for Http {
    fn emit<S: JsonSink>(&self, out: &mut S) -> Result<(), AllocError> {
        let names = http_rows!(row_names!());
        let values = http_rows!(row_values!(self));
        emit_table(out, names, &values, &self.extensions)
    }
}

impl Tree for Http {
    ghost use Rattle.utoipa_security.specs.Http.{http_of_kind};

    ghost is_of_kind = { http_of_kind };

    fn read_plain(alloc: Global, tree: &Value, readings: &mut Readings) -> Result<Http, ReadFault> {
        let names = http_rows!(row_names!());
        let (fields, extensions) = read_table(alloc, tree, "Http", names, readings)?;
        Ok(http_rows!(from_fields!(Http, fields, extensions)))
    }

    fn try_clone(&self, alloc: Global) -> Result<Http, AllocError> {
        http_rows!(clone_table!(Http, self, alloc))
    }
}

impl Place for Http {
    fn is_schema() -> bool {
        false
    }
}

/// Builds an [`Http`].
#[derive(Debug, Default, Drop)]
pub struct HttpBuilder {
    http: Http,
}

impl HttpBuilder {
    ghost use Rattle.utoipa_security.specs.Http.{made_http, built_http, format_for};

    /// Begins with the scheme `basic`, with nothing else.
    pub fn new() -> HttpBuilder
        ensures { built_http result ≡ made_http HttpAuthScheme.Basic }
    {
        HttpBuilder {
            http: Http::new(HttpAuthScheme::Basic),
        }
    }

    /// Sets the name of the authentication scheme.
    pub fn scheme(mut self, scheme: HttpAuthScheme) -> HttpBuilder
        ensures { built_http result ≡ record (built_http self) { scheme = scheme } }
    {
        self.http.scheme = scheme;
        self
    }

    /// Sets the hint on how a bearer token is formed, if the scheme is `bearer` by now. Else nothing changes.
    pub fn bearer_format(mut self, bearer_format: String) -> HttpBuilder
        ensures { built_http result ≡ record (built_http self) {
          bearer_format = format_for (built_http self).scheme (built_http self).bearer_format bearer_format;
        } }
    {
        match self.http.scheme {
            HttpAuthScheme::Bearer => {
                self.http.bearer_format = Some(bearer_format);
                self
            }
            _ => self,
        }
    }

    /// Sets the description.
    pub fn description(mut self, description: Option<String>) -> HttpBuilder
        ensures { built_http result ≡ record (built_http self) { description = description } }
    {
        self.http.description = description;
        self
    }

    /// Sets whether the scheme is deprecated.
    pub fn deprecated(mut self, deprecated: Option<Deprecated>) -> HttpBuilder
        ensures { built_http result ≡ record (built_http self) { deprecated = deprecated } }
    {
        self.http.deprecated = deprecated;
        self
    }

    /// The scheme that was built.
    pub fn build(self) -> Http
        ensures { result ≡ built_http self }
    {
        self.http
    }
}

impl From<Http> for HttpBuilder {
    ghost use Rattle.utoipa_security.specs.Http.{built_http};

    ghost from_gives = { λ http builder. built_http builder ≡ http };

    fn from(http: Http) -> HttpBuilder {
        HttpBuilder { http }
    }
}

impl From<HttpBuilder> for Http {
    ghost use Rattle.utoipa_security.specs.Http.{built_http};

    ghost from_gives = { λ builder http. http ≡ built_http builder };

    fn from(builder: HttpBuilder) -> Http {
        builder.build()
    }
}
