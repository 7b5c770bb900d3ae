//! A gateway for several services: reads their documents from standard input, and prints one document of them all and of the gateway's own
//! service, once that is seen to read back. What is dropped on the way, where one says otherwise than another has said before it, is told on
//! standard error.
//!
//! The input is a JSON list with an object for each service: `base` is what the gateway puts before the paths of the service, and
//! `document` is the OpenAPI document of the service alone. What the gateway says of its own service is assembled of types
//! (`own_document.rt`).
ghost use Rattle.std.specs.Prelude.{IfOk};
ghost use Rattle.utoipa.specs.OpenApi.{openapi_doc};
ghost use Rattle.utoipa_conflicts.specs.Views.{all_told};
ghost use Rattle.examples_of_use.specs.Gateway.{IsGatewayOf};

use crate::own_document::Pets;
use crate::service;
use crate::service::Service;
use anyhow::{Context, Result};
use std::alloc::Global;
use std::io;
use utoipa::openapi::{MergeFault, merge_all};
use utoipa::{OpenApi, Tree, openapi};
use utoipa_conflicts::{DocumentConflict, conflicts, nested_conflicts};

/// The document of the gateway.
#[derive(Debug, Drop)]
pub struct Gateway {
    /// The gateway's own document, with those of all services merged into it.
    pub document: openapi::OpenApi,
    /// What a service says that another one has said before it, and otherwise. The gateway's own document has number 0, and the services
    /// follow.
    pub conflicts: Vec<DocumentConflict>,
}

/// Reads the services, and prints the document of the gateway.
pub fn run(rt: &HostRuntime) -> Result<()> {
    let text = io::read_to_string(rt.alloc(), rt.stdin()).context("reading the services")?;
    let services = service::from_json(rt.alloc(), text.as_str())?;
    let own = Pets::openapi(rt.alloc())?;
    tell_nested(rt, &own, &services)?;
    let gateway = merged(rt.alloc(), own, services)?;
    tell(rt, "the services", &gateway.conflicts)?;
    let text = gateway.document.to_pretty_json(rt.alloc())?;
    read_back(rt, text.as_str())?;
    println!(rt; "{text}")?;
    Ok(())
}

/// The gateway's own document with those of all services merged into it, the paths of each behind its base.
///
/// Of an operation or a component that two have under one name, the gateway's own stays, or else that of the first service. What is said
/// of a service as a whole, as its title, is left out.
///
/// Fails with `Memory` where memory runs out, and with `Fraction` where a number in a server or a tag is neither an `i64` nor a `u64`,
/// which is so in no document that was read.
pub fn merged(
    alloc: Global,
    own: openapi::OpenApi,
    services: Vec<Service>,
) -> Result<Gateway, MergeFault>
    ensures { IfOk result (λ gateway. IsGatewayOf (openapi_doc own) services.items (openapi_doc gateway.document)
        (all_told gateway.conflicts.items)) }
{
    let mut documents = Vec::new(alloc);
    documents.push(own.try_clone(alloc)?)?;
    for Service { base, document } in services {
        let copy = own.try_clone(alloc)?;
        documents.push(copy.nest(alloc, base.as_str(), document)?)?;
    }
    let conflicts = conflicts(alloc, &documents)?;
    // There is a document at least: the gateway's own.
    let document = merge_all(alloc, documents)?.unwrap();
    Ok(Gateway {
        document,
        conflicts,
    })
}

// Tells what each service says otherwise than the gateway's own document does, which stays.
fn tell_nested(rt: &HostRuntime, own: &openapi::OpenApi, services: &[Service]) -> Result<()> {
    for service in services {
        let base = service.base.as_str();
        let conflicts = nested_conflicts(rt.alloc(), own, base, &service.document)?;
        tell(rt, base, &conflicts)?;
    }
    Ok(())
}

// Tells conflicts on standard error, each after what it is about.
fn tell(rt: &HostRuntime, about: &str, conflicts: &[DocumentConflict]) -> Result<()> {
    for conflict in conflicts {
        eprintln!(rt; "{about}: {conflict}").context("telling a conflict")?;
    }
    Ok(())
}

// Reads a document's text as a client of the gateway does, and tells its title on standard error. An error says why there is no document.
fn read_back(rt: &HostRuntime, text: &str) -> Result<()> {
    let document = openapi::OpenApi::from_json(rt.alloc(), text).context(
        "the document does not read back",
    )?;
    let title = &document.info.title;
    eprintln!(rt; "The title is {title}.").context("telling the title")
}
