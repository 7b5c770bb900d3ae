//! The services behind the gateway, as JSON tells of them.

use anyhow::{Context, Result};
use serde_json::Value;
use std::alloc::Global;
use utoipa::Tree;
use utoipa::openapi::OpenApi;

/// A service behind the gateway.
#[derive(Debug, Drop)]
pub struct Service {
    /// What the gateway puts before each path of the service, as `/orders`.
    pub base: String,
    /// What the service says of itself, by paths with no base.
    pub document: OpenApi,
}

/// The services of a JSON list. An error says which of them is refused, and why.
pub fn from_json(alloc: Global, text: &str) -> Result<Vec<Service>> {
    let tree = Value::from_str(alloc, text).context("the input is no JSON text")?;
    let items = tree.as_array().context("the input is no list of services")?;
    let mut services = Vec::new(alloc);
    for (index, item) in items.iter().enumerate() {
        let number = index + 1;
        let service = Service::from_value(alloc, item);
        services.push(service.context(format_args!("service {number} of the list is refused"))?)?;
    }
    Ok(services)
}

impl Service {
    /// The service of an object with a text `base` and an OpenAPI document `document`.
    pub fn from_value(alloc: Global, value: &Value) -> Result<Service> {
        let base = value.get("base").and_then(Value::as_str);
        let base = String::from_str(alloc, base.context("it has no text as `base`")?)?;
        let tree = value.get("document").context("it has no `document`")?;
        let document = OpenApi::from_value(alloc, tree).context("its document is refused")?;
        Ok(Service { base, document })
    }
}
