//! Four programs of one file each, in the order in which a newcomer reads them: a document made by builders (`builders.rt`), the operations of a
//! document that was read (`operations.rt`), a document of the types of a program (`types.rt`), and a gateway, which nests and merges the
//! documents of services (`gateway.rt`).
//!
//! The first word of the call, `builders`, `operations`, `types` or `gateway`, says which of them runs. With no word each runs, in this order.
//! Only the gateway reads standard input.
#![tactic(auto)]

mod builders;
mod gateway;
mod operations;
mod own_document;
mod service;
mod types;

use anyhow::{Context, Result, bail};
use std::env;
use utoipa::openapi::OpenApi;

fn main(rt: HostRuntime) -> Result<()> {
    let word = env::args(&rt)?.nth(1);
    match word.as_deref() {
        None => run_each(&rt),
        Some("builders") => print_built(&rt),
        Some("operations") => operations::run(&rt),
        Some("types") => print_typed(&rt),
        Some("gateway") => gateway::run(&rt),
        Some(_) => bail!("the words are: builders, operations, types, gateway"),
    }
}

// Runs one program after the other.
fn run_each(rt: &HostRuntime) -> Result<()> {
    print_built(rt)?;
    operations::run(rt)?;
    print_typed(rt)?;
    gateway::run(rt)
}

// Prints the document that is made by builders.
fn print_built(rt: &HostRuntime) -> Result<()> {
    let document = builders::document(rt.alloc())?;
    print_document(rt, &document)
}

// Prints the document that is made of types.
fn print_typed(rt: &HostRuntime) -> Result<()> {
    let document = types::document(rt.alloc())?;
    print_document(rt, &document)
}

// Prints a document in lines.
fn print_document(rt: &HostRuntime, document: &OpenApi) -> Result<()> {
    let text = document.to_pretty_json(rt.alloc())?;
    println!(rt; "{text}").context("printing a document")
}
