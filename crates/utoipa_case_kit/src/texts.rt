//! The texts that a call is given.

use serde_json::Value;
use std::alloc::Global;

/// The trees of two texts with a tab between them, or what there is none of.
pub fn two_trees(alloc: Global, texts: &str) -> Result<(Value, Value), &'static str> {
    let Some((first, second)) = texts.split_once('\t') else {
        return Err("no two texts");
    };
    match (
        Value::from_str(alloc, first),
        Value::from_str(alloc, second),
    ) {
        (Ok(first), Ok(second)) => Ok((first, second)),
        _ => Err("no tree"),
    }
}
