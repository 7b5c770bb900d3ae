//! Schemes by OAuth 2.
ghost use Rattle.std.specs.Prelude.{◌≡◌, None, Some, codes, IfOk, OnOk};
ghost use Rattle.std.specs.Iterator.{IsFinite};
ghost use Rattle.utoipa_base.specs.Docs.{tagged_doc};
ghost use Rattle.utoipa_base.specs.Kinds.{named, oauth2_scheme};
ghost use Rattle.utoipa_base.specs.Events.{events};
ghost use Rattle.utoipa_base.specs.Lists.{EachIterator};
ghost use Rattle.utoipa_base.specs.Writing.{write};

use crate::security::flows::{Flow, keyed_flows};
use crate::security::row_lists::{clone_table, from_fields, row_values};
use serde_json::Value;
use std::alloc::{AllocError, Global};
use std::collections::BTreeMap;
use utoipa_base::{
    Deprecated, Documented, Emit, Extensions, JsonSink, Place, ReadFault, Readings, Tree,
    emit_table, read_table, row_names,
};

// The rows of a scheme by OAuth 2, in the order of the members' names: mark, member, field. Others may stand last.
macro_rules! oauth2_rows {
    ($lines:ident!($($arguments:tt)*) $($last:tt)*) => {
        $lines! {
            $($arguments)*;
            optional "deprecated" deprecated,
            optional "description" description,
            flows "flows" flows,
            optional "oauth2MetadataUrl" oauth2_metadata_url,
            $($last)*
        }
    };
}

/// A Security Scheme Object of the type `oauth2` (OpenAPI 3.1, section 4.8.27), without its member `type`.
#[derive(Debug, Drop)]
pub struct OAuth2 {
    /// The OAuth Flows Object (section 4.8.28): the flows, each under the key of its kind.
    pub flows: BTreeMap<String, Flow>,
    /// The URL of the authorization server's metadata, from OpenAPI 3.2 on: the member `oauth2MetadataUrl`.
    pub oauth2_metadata_url: Option<String>,
    /// A description of the scheme.
    pub description: Option<String>,
    /// Whether the scheme is deprecated, from OpenAPI 3.2 on.
    pub deprecated: Option<Deprecated>,
    /// Specification extensions.
    pub extensions: Option<Extensions>,
}

impl OAuth2 {
    ghost use Rattle.utoipa_security.specs.OAuth.{made_oauth2, IsKeyedFrom, oauth2_doc};

    /// A scheme with flows, each under the key of its kind, where the later of two of one kind stays. The iterator has to
    /// end. Fails where memory runs out.
    pub fn new<I: IntoIterator<Item = Flow>>(alloc: Global, flows: I) -> Result<OAuth2, AllocError>
        requires can { EachIterator I.into_iter_gives I.IntoIter.can_next flows }
        requires ends { EachIterator I.into_iter_gives (λ it. IsFinite (I.IntoIter.remaining it)) flows }
        ensures { IfOk result (λ s. IsKeyedFrom I.into_iter_gives I.IntoIter.next_gives flows s.flows
            × (s ≡ made_oauth2 s.flows None)) }
    {
        Ok(OAuth2 {
            flows: keyed_flows(alloc, flows)?,
            oauth2_metadata_url: None,
            description: None,
            deprecated: None,
            extensions: None,
        })
    }

    /// As [`OAuth2::new`], with a description. The iterator has to end. Fails where memory runs out.
    pub fn with_description<I: IntoIterator<Item = Flow>>(
        alloc: Global,
        flows: I,
        description: String,
    ) -> Result<OAuth2, AllocError>
        requires can { EachIterator I.into_iter_gives I.IntoIter.can_next flows }
        requires ends { EachIterator I.into_iter_gives (λ it. IsFinite (I.IntoIter.remaining it)) flows }
        ensures { IfOk result (λ s. IsKeyedFrom I.into_iter_gives I.IntoIter.next_gives flows s.flows
            × (s ≡ made_oauth2 s.flows (Some description))) }
    {
        Ok(OAuth2 {
            flows: keyed_flows(alloc, flows)?,
            oauth2_metadata_url: None,
            description: Some(description),
            deprecated: None,
            extensions: None,
        })
    }

    /// Sets the URL of the authorization server's metadata.
    pub fn with_metadata_url(mut self, oauth2_metadata_url: String) -> OAuth2
        ensures { result ≡ record self { oauth2_metadata_url = Some oauth2_metadata_url } }
    {
        self.oauth2_metadata_url = Some(oauth2_metadata_url);
        self
    }

    /// Sets whether the scheme is deprecated.
    pub fn deprecated(mut self, deprecated: Option<Deprecated>) -> OAuth2
        ensures { result ≡ record self { deprecated = deprecated } }
    {
        self.deprecated = deprecated;
        self
    }

    /// Sends the scheme with its member `type`, of this word. Fails where the sink does; then some of it may have been sent.
    pub(crate) fn emit_typed<S: JsonSink>(&self, out: &mut S, word: &str) -> Result<(), AllocError>
        ensures { OnOk result (S.adds out.old
            (events (write (tagged_doc (codes "type") word.now (oauth2_doc self.now)))) out.new) }
    {
        let names = oauth2_rows!(row_names!() tag "type" word,);
        let values = oauth2_rows!(row_values!(self) tag "type" word,);
        emit_table(out, names, &values, &self.extensions)
    }
}

impl Documented for OAuth2 {
    ghost use Rattle.utoipa_security.specs.OAuth.{oauth2_doc};

    ghost kind = { named oauth2_scheme };

    ghost doc = { oauth2_doc };
}

impl Emit for OAuth2 {
    fn emit<S: JsonSink>(&self, out: &mut S) -> Result<(), AllocError> {
        let names = oauth2_rows!(row_names!());
        let values = oauth2_rows!(row_values!(self));
        emit_table(out, names, &values, &self.extensions)
    }
}

impl Tree for OAuth2 {
    ghost use Rattle.utoipa_security.specs.OAuth.{oauth2_of_kind};

    ghost is_of_kind = { oauth2_of_kind };

    fn read_plain(
        alloc: Global,
        tree: &Value,
        readings: &mut Readings,
    ) -> Result<OAuth2, ReadFault> {
        let names = oauth2_rows!(row_names!());
        let (fields, extensions) = read_table(alloc, tree, "OAuth2", names, readings)?;
        Ok(oauth2_rows!(from_fields!(OAuth2, fields, extensions)))
    }

    fn try_clone(&self, alloc: Global) -> Result<OAuth2, AllocError> {
        oauth2_rows!(clone_table!(OAuth2, self, alloc))
    }
}

impl Place for OAuth2 {
    fn is_schema() -> bool {
        false
    }
}
