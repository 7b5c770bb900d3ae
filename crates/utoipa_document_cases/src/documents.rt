//! Documents of a list that are merged into one, and documents that are nested where a composer of paths says.

use crate::brackets::{from_left, from_right};
use crate::merged::{read_both, read_text, shown, shown_if_any};
use std::alloc::{AllocError, Global};
use utoipa::openapi::{Bracketing, MergeFault, OpenApi, merge_all, merge_tree};
use utoipa_case_kit::{refused, two_trees};

/// What the documents of a list are written as, once they are merged all at once; `none` where there is no document.
pub fn merged_at_once(alloc: Global, text: &str) -> Result<String, AllocError> {
    match read_text::<Vec<OpenApi>>(alloc, text) {
        Ok(documents) => shown_if_any(alloc, merge_all(alloc, documents)),
        Err(fault) => refused(alloc, &fault),
    }
}

/// The same, where they are merged pair by pair: the `left` side begins with the first two, the `right` one with the last two.
pub fn merged_in_pairs(alloc: Global, side: &str, text: &str) -> Result<String, AllocError> {
    match read_text::<Vec<OpenApi>>(alloc, text) {
        Ok(documents) => {
            match side {
                "left" => shown_brackets(alloc, from_left(alloc, documents)),
                "right" => shown_brackets(alloc, from_right(alloc, documents)),
                _ => String::from_str(alloc, "no such side"),
            }
        }
        Err(fault) => refused(alloc, &fault),
    }
}

fn shown_brackets(
    alloc: Global,
    brackets: Result<Option<Bracketing>, AllocError>,
) -> Result<String, AllocError> {
    match brackets {
        Ok(Some(brackets)) => shown(alloc, merge_tree(alloc, brackets)),
        Ok(None) => shown_if_any::<OpenApi>(alloc, Ok(None)),
        Err(refused) => Err(refused),
    }
}

/// What the document of the first of two texts, with a tab between them, is written as, once that of the second is nested into it at the
/// base `/v1`, where the composer of that rule answers each path.
pub fn nested_by_rule(alloc: Global, rule: &str, texts: &str) -> Result<String, AllocError> {
    match two_trees(alloc, texts) {
        Ok((own, nested)) => match read_both(alloc, &own, &nested) {
            Ok((own, nested)) => shown(alloc, composed(alloc, rule, own, nested)),
            Err(fault) => refused(alloc, &fault),
        },
        Err(lacking) => String::from_str(alloc, lacking),
    }
}

fn composed(
    alloc: Global,
    rule: &str,
    own: OpenApi,
    nested: OpenApi,
) -> Result<OpenApi, MergeFault> {
    let composer = |base: &str, path: &str| composed_path(alloc, rule, base, path);
    own.nest_with_path_composer(alloc, "/v1", nested, composer)
}

// Each other rule refuses each path.
fn composed_path(alloc: Global, rule: &str, base: &str, path: &str) -> Result<String, AllocError> {
    match rule {
        "fixed" => String::from_str(alloc, "/x"),
        "empty" => String::from_str(alloc, ""),
        "turned" => format!(in alloc; "{path}{base}"),
        _ => Err(AllocError),
    }
}
