//! An operation of a document, compared with itself in the merged document.
ghost use Rattle.std.specs.Prelude.{◌≡◌, option_map};
ghost use Rattle.serde_json.specs.Find.{get};
ghost use Rattle.serde_json.specs.View.{view};
ghost use Rattle.utoipa_meaning.specs.Changes as specs;
ghost use Rattle.utoipa_meaning.specs.Meaning.{is_empty_list as is_empty_array, no_security as nothing_demanded, default_servers as one_server, document_security as security_of, document_servers as servers_of};
ghost use Rattle.utoipa_meaning.specs.Operations.{standing_at as standing_at_place};
ghost use Rattle.utoipa_meaning.specs.Views.{AreCompared, IsCompared, difference_of, place_of, source_of, standing_of};

use crate::difference::{Difference, Source};
use crate::inherited::{Inherited, compared, inherit};
use crate::operation::OperationPlace;
use serde_json::Value;

/// An operation where it stands.
#[derive(Clone, Copy, Drop)]
pub(crate) struct Standing<'a> {
    pub(crate) document: &'a Value,
    pub(crate) path_item: &'a Value,
    pub(crate) operation: &'a Value,
}

/// A document and the merged one, with what their operations have from them.
#[derive(Clone, Copy, Drop)]
pub(crate) struct Compared<'a> {
    pub(crate) own: &'a Value,
    pub(crate) merged: &'a Value,
    pub(crate) security: Inherited<'a>,
    pub(crate) servers: Inherited<'a>,
}

/// The security of a document, for operations that have none of their own.
fn document_security<'a>(document: &'a Value, none: &'a Value) -> &'a Value
    requires { view none.now ≡ nothing_demanded }
    ensures { view result.now ≡ security_of (view document.now) }
{
    match document.get("security") {
        Some(security) => security,
        None => none,
    }
}

/// Whether a tree is an empty array.
fn is_empty_list(tree: &Value) -> bool
    ensures { result ≡ is_empty_array (view tree.now) }
{
    match tree {
        Value::Array(items) => items.is_empty(),
        _ => false,
    }
}

/// The servers of a document, for path items and operations that have none of their own.
fn document_servers<'a>(document: &'a Value, default: &'a Value) -> &'a Value
    requires { view default.now ≡ one_server }
    ensures { view result.now ≡ servers_of (view document.now) }
{
    match document.get("servers") {
        Some(servers) => {
            if is_empty_list(servers) {
                return default;
            }
            servers
        }
        None => default,
    }
}

/// A document and the merged one, compared by what their operations have from them.
pub(crate) fn compare<'a>(
    own: &'a Value,
    merged: &'a Value,
    no_security: &'a Value,
    default_servers: &'a Value,
) -> Compared<'a>
    requires security { view no_security.now ≡ nothing_demanded }
    requires servers { view default_servers.now ≡ one_server }
    ensures compared { AreCompared result }
    ensures own { view result.own.now ≡ view own.now }
    ensures merged { view result.merged.now ≡ view merged.now }
{
    let own_security = document_security(own, no_security);
    let merged_security = document_security(merged, no_security);
    let own_servers = document_servers(own, default_servers);
    let merged_servers = document_servers(merged, default_servers);
    Compared {
        own,
        merged,
        security: compared(own_security, merged_security),
        servers: compared(own_servers, merged_servers),
    }
}

/// An operation where it stands in a document, if it stands there.
pub(crate) fn standing_at<'a>(
    place: OperationPlace<'_>,
    document: &'a Value,
) -> Option<Standing<'a>>
    ensures { option_map standing_of result ≡ standing_at_place (place_of place.entry) (view document.now) }
{
    let path_item = match place {
        OperationPlace::Method(path, _) => document.get("paths")?.get(path)?,
        OperationPlace::Additional(path, _) => document.get("paths")?.get(path)?,
    };
    let operation = match place {
        OperationPlace::Method(_, method) => path_item.get(method)?,
        OperationPlace::Additional(_, method) => path_item
            .get("additionalOperations")?
            .get(method)?,
    };
    Some(Standing {
        document,
        path_item,
        operation,
    })
}

/// Where the security that is in effect comes from.
fn security_source(standing: Standing<'_>) -> Source
    ensures { source_of result ≡ specs.security_source (standing_of standing.entry) }
{
    if standing.operation.get("security").is_some() {
        return Source::Operation;
    }
    match standing.document.get("security") {
        Some(_) => Source::Document,
        None => Source::Default,
    }
}

/// Where the servers of a document come from.
fn document_source(servers: Option<&Value>) -> Source
    ensures { source_of result ≡ specs.document_source (option_map (λ v. view v.now) servers.entry) }
{
    match servers {
        Some(servers) => {
            if is_empty_list(servers) {
                return Source::Default;
            }
            Source::Document
        }
        None => Source::Default,
    }
}

/// Where the servers come from.
fn servers_source(standing: Standing<'_>) -> Source
    ensures { source_of result ≡ specs.servers_source (standing_of standing.entry) }
{
    if standing.operation.get("servers").is_some() {
        return Source::Operation;
    }
    if standing.path_item.get("servers").is_some() {
        return Source::PathItem;
    }
    document_source(standing.document.get("servers"))
}

/// What differs of the security, if something does.
pub(crate) fn security_difference<'a>(
    documents: Compared<'a>,
    own: Standing<'a>,
    merged: Standing<'a>,
) -> Option<Difference>
    requires compared { AreCompared documents }
    requires own { view own.document.now ≡ view documents.own.now }
    requires merged { view merged.document.now ≡ view documents.merged.now }
    ensures { option_map difference_of result ≡ specs.security_difference (standing_of own.entry) (standing_of merged.entry) }
{
    let security = inherit(
        "security",
        own.operation,
        merged.operation,
        documents.security,
    );
    if security.same {
        return None;
    }
    Some(Difference::Security(security_source(own), security_source(merged)))
}

/// What differs of the servers, if something does.
pub(crate) fn servers_difference<'a>(
    documents: Compared<'a>,
    own: Standing<'a>,
    merged: Standing<'a>,
) -> Option<Difference>
    requires compared { AreCompared documents }
    requires own { view own.document.now ≡ view documents.own.now }
    requires merged { view merged.document.now ≡ view documents.merged.now }
    ensures { option_map difference_of result ≡ specs.servers_difference (standing_of own.entry) (standing_of merged.entry) }
{
    let of_items = inherit(
        "servers",
        own.path_item,
        merged.path_item,
        documents.servers,
    );
    let servers = inherit("servers", own.operation, merged.operation, of_items);
    if servers.same {
        return None;
    }
    Some(Difference::Servers(servers_source(own), servers_source(merged)))
}
