//! The types by their names.

use std::alloc::{AllocError, Global};
use std::collections::BTreeMap;
use utoipa::openapi::OpenApi;
use utoipa_base::RefOr;
use utoipa_case_kit::{Question, answered};
use utoipa_components::Components;
use utoipa_path::{Callback, Operation, PathItem};
use utoipa_paths::Paths;

/// The answer to a question of a text as the type of that name.
pub fn answer_of_type(
    alloc: Global,
    question: Question,
    name: &str,
    text: &str,
) -> Result<String, AllocError> {
    match name {
        "Operation" => answered::<Operation>(alloc, question, text),
        "PathItem" => answered::<PathItem>(alloc, question, text),
        "Paths" => answered::<Paths>(alloc, question, text),
        "OpenApi" => answered::<OpenApi>(alloc, question, text),
        "Components" => answered::<Components>(alloc, question, text),
        "Callback" => answered::<Callback>(alloc, question, text),
        "RefOr<Operation>" => answered::<RefOr<Operation>>(alloc, question, text),
        "RefOr<PathItem>" => answered::<RefOr<PathItem>>(alloc, question, text),
        "RefOr<Callback>" => answered::<RefOr<Callback>>(alloc, question, text),
        "BTreeMap<String, Operation>" => {
            answered::<BTreeMap<String, Operation>>(alloc, question, text)
        }
        _ => String::from_str(alloc, "no such type"),
    }
}
