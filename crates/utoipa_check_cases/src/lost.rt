//! The calls that tell in lines what is found in a file, and what it loses when its document is written again.

use std::alloc::{AllocError, Global};
use utoipa_findings::{Form, Refusal, Source, check, lost_of};
use utoipa_leaf::info::{Contact, Info};
use utoipa_leaf::tag::Tag;
use utoipa_tables::{Kind, ObjectType};

// The file that a text is.
fn file(text: &str) -> Source<'_> {
    Source {
        name: "f",
        bytes: text.as_bytes(),
        form: Form::AsIs,
    }
}

/// The lines of what is found in a text as a document of a type.
pub(crate) fn found_in_text(alloc: Global, name: &str, text: &str) -> Result<String, AllocError> {
    let lines = match name {
        "Contact" => {
            check::<Contact>(alloc, Kind::Named(ObjectType::ContactObject), file(text))?
        }
        "Info" => check::<Info>(alloc, Kind::Named(ObjectType::InfoObject), file(text))?,
        "Tag" => check::<Tag>(alloc, Kind::Named(ObjectType::TagObject), file(text))?,
        _ => return String::from_str(alloc, "no such type"),
    };
    on_one_line(alloc, lines.as_str())
}

/// The lines of what a text loses as a document of a type, or, after `refused: `, those that tell why it is none.
pub(crate) fn lost_of_text(alloc: Global, name: &str, text: &str) -> Result<String, AllocError> {
    let lines = match name {
        "Contact" => lost_of::<Contact>(alloc, Kind::Named(ObjectType::ContactObject), file(text)),
        "Info" => lost_of::<Info>(alloc, Kind::Named(ObjectType::InfoObject), file(text)),
        "Tag" => lost_of::<Tag>(alloc, Kind::Named(ObjectType::TagObject), file(text)),
        _ => return String::from_str(alloc, "no such type"),
    };
    match lines {
        Ok(lines) => on_one_line(alloc, lines.as_str()),
        Err(Refusal::Told(lines)) => {
            let lines = on_one_line(alloc, lines.as_str())?;
            format!(in alloc; "refused: {lines}")
        }
        Err(Refusal::Memory) => Err(AllocError),
    }
}

// Lines on one, ` ; ` between two; `none` where there are none.
fn on_one_line(alloc: Global, lines: &str) -> Result<String, AllocError> {
    if lines.is_empty() {
        return String::from_str(alloc, "none");
    }
    let mut text = String::new(alloc);
    for line in lines.lines() {
        if !text.is_empty() {
            text.push_str(" ; ")?;
        }
        text.push_str(line)?;
    }
    Ok(text)
}
