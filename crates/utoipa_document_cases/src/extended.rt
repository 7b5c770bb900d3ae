//! The types that keep extensions.

use utoipa::openapi::OpenApi;
use utoipa_base::{Extensions, Tree};
use utoipa_components::Components;
use utoipa_path::{Operation, PathItem};
use utoipa_paths::Paths;

/// A type whose values keep extensions.
pub trait Extended: Tree {
    /// Sets the extensions, in place of those that the value has.
    fn set_extensions(&mut self, extensions: Extensions);
}

impl Extended for Operation {
    fn set_extensions(&mut self, extensions: Extensions) {
        self.extensions = Some(extensions);
    }
}

impl Extended for PathItem {
    fn set_extensions(&mut self, extensions: Extensions) {
        self.extensions = Some(extensions);
    }
}

impl Extended for Paths {
    fn set_extensions(&mut self, extensions: Extensions) {
        self.extensions = Some(extensions);
    }
}

impl Extended for OpenApi {
    fn set_extensions(&mut self, extensions: Extensions) {
        self.extensions = Some(extensions);
    }
}

impl Extended for Components {
    fn set_extensions(&mut self, extensions: Extensions) {
        self.extensions = Some(extensions);
    }
}
