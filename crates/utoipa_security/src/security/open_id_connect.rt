//! Schemes whose configuration is found by OpenID Connect Discovery.
ghost use Rattle.std.specs.Prelude.{◌≡◌, None, Some, codes, OnOk};
ghost use Rattle.utoipa_base.specs.Docs.{tagged_doc};
ghost use Rattle.utoipa_base.specs.Kinds.{named, open_id_connect_scheme};
ghost use Rattle.utoipa_base.specs.Events.{events};
ghost use Rattle.utoipa_base.specs.Writing.{write};

use crate::security::row_lists::row_values;
use serde_json::Value;
use std::alloc::{AllocError, Global};
use utoipa_base::{
    Deprecated, Documented, Emit, Extensions, JsonSink, Place, ReadFault, Readings, Tree,
    clone_table, emit_table, from_fields, read_table, row_names,
};

// The rows of a scheme by OpenID Connect, in the order of the members' names: mark, member, field. Others may stand last.
macro_rules! open_id_connect_rows {
    ($lines:ident!($($arguments:tt)*) $($last:tt)*) => {
        $lines! {
            $($arguments)*;
            optional "deprecated" deprecated,
            optional "description" description,
            required "openIdConnectUrl" open_id_connect_url,
            $($last)*
        }
    };
}

/// A Security Scheme Object of the type `openIdConnect` (OpenAPI 3.1, section 4.8.27), without its member `type`.
#[derive(Debug, Drop)]
pub struct OpenIdConnect {
    /// The URL of the discovery document: the member `openIdConnectUrl`.
    pub open_id_connect_url: String,
    /// A description of the scheme.
    pub description: Option<String>,
    /// Whether the scheme is deprecated, from OpenAPI 3.2 on.
    pub deprecated: Option<Deprecated>,
    /// Specification extensions.
    pub extensions: Option<Extensions>,
}

impl OpenIdConnect {
    ghost use Rattle.utoipa_security.specs.OpenIdConnect.{made_open_id_connect, open_id_connect_doc};

    /// A scheme whose discovery document is at a URL, with nothing else.
    pub fn new(open_id_connect_url: String) -> OpenIdConnect
        ensures { result ≡ made_open_id_connect open_id_connect_url None }
    {
        OpenIdConnect {
            open_id_connect_url,
            description: None,
            deprecated: None,
            extensions: None,
        }
    }

    /// A scheme whose discovery document is at a URL, with a description.
    pub fn with_description(open_id_connect_url: String, description: String) -> OpenIdConnect
        ensures { result ≡ made_open_id_connect open_id_connect_url (Some description) }
    {
        OpenIdConnect {
            open_id_connect_url,
            description: Some(description),
            deprecated: None,
            extensions: None,
        }
    }

    /// Sets whether the scheme is deprecated.
    pub fn deprecated(mut self, deprecated: Option<Deprecated>) -> OpenIdConnect
        ensures { result ≡ record self { deprecated = deprecated } }
    {
        self.deprecated = deprecated;
        self
    }

    /// Sends the scheme with its member `type`, of this word. Fails where the sink does; then some of it may have been sent.
    pub(crate) fn emit_typed<S: JsonSink>(&self, out: &mut S, word: &str) -> Result<(), AllocError>
        ensures { OnOk result (S.adds out.old
            (events (write (tagged_doc (codes "type") word.now (open_id_connect_doc self.now)))) out.new) }
    {
        let names = open_id_connect_rows!(row_names!() tag "type" word,);
        let values = open_id_connect_rows!(row_values!(self) tag "type" word,);
        emit_table(out, names, &values, &self.extensions)
    }
}

impl Documented for OpenIdConnect {
    ghost use Rattle.utoipa_security.specs.OpenIdConnect.{open_id_connect_doc};

    ghost kind = { named open_id_connect_scheme };

    ghost doc = { open_id_connect_doc };
}

impl Emit for OpenIdConnect {
    fn emit<S: JsonSink>(&self, out: &mut S) -> Result<(), AllocError> {
        let names = open_id_connect_rows!(row_names!());
        let values = open_id_connect_rows!(row_values!(self));
        emit_table(out, names, &values, &self.extensions)
    }
}

impl Tree for OpenIdConnect {
    ghost use Rattle.utoipa_security.specs.OpenIdConnect.{open_id_connect_of_kind};

    ghost is_of_kind = { open_id_connect_of_kind };

    fn read_plain(
        alloc: Global,
        tree: &Value,
        readings: &mut Readings,
    ) -> Result<OpenIdConnect, ReadFault> {
        let names = open_id_connect_rows!(row_names!());
        let (fields, extensions) = read_table(alloc, tree, "OpenIdConnect", names, readings)?;
        Ok(open_id_connect_rows!(from_fields!(OpenIdConnect, fields, extensions)))
    }

    fn try_clone(&self, alloc: Global) -> Result<OpenIdConnect, AllocError> {
        open_id_connect_rows!(clone_table!(OpenIdConnect, self, alloc))
    }
}

impl Place for OpenIdConnect {
    fn is_schema() -> bool {
        false
    }
}
