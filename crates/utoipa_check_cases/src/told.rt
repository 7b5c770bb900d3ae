//! How lists are told on a line.

use std::alloc::{AllocError, Global};
use std::fmt::Display;

/// The items of a list, ` ; ` between two; `none` where there are none.
pub(crate) fn told<T: Display>(alloc: Global, items: &[T]) -> Result<String, AllocError> {
    if items.is_empty() {
        return String::from_str(alloc, "none");
    }
    let mut text = String::new(alloc);
    for item in items {
        if !text.is_empty() {
            text.push_str(" ; ")?;
        }
        let one = format!(in alloc; "{item}")?;
        text.push_str(one.as_str())?;
    }
    Ok(text)
}
