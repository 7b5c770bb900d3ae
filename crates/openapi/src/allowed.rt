//! Which losses are accepted: the words behind `--allow`.

use std::alloc::{AllocError, Global};
use utoipa_check::Shown;
use utoipa_command::files::Source;

/// The word for members that the model does not keep.
pub const UNKNOWN_MEMBERS: &str = "unknown-members";

// How the line of a value ends that the model does not keep.
const DROPPED: &str = ": this is dropped";

/// Of lines that tell what is lost of some files those that no word allows. A word is the beginning of a JSON Pointer, as `/info`, or the name of
/// a member of the document, as `info`, and allows what is lost there and below; or [`UNKNOWN_MEMBERS`]. Fails where memory runs out.
pub fn not_allowed(
    alloc: Global,
    sources: &[Source<'_>],
    words: &[&str],
    lines: &str,
) -> Result<String, AllocError> {
    let mut rest = String::new(alloc);
    for line in lines.lines() {
        if !is_allowed(alloc, sources, words, line)? {
            write!(rest, "{line}\n")?;
        }
    }
    Ok(rest)
}

// Whether one of the words allows what a line tells.
fn is_allowed(
    alloc: Global,
    sources: &[Source<'_>],
    words: &[&str],
    line: &str,
) -> Result<bool, AllocError> {
    let told = behind_name(alloc, sources, line)?;
    for word in words {
        if allows(word, told) {
            return Ok(true);
        }
    }
    Ok(false)
}

// What a line tells behind the name of its file; of names that each stand in front of it, the longest is the file's.
fn behind_name<'l>(
    alloc: Global,
    sources: &[Source<'_>],
    line: &'l str,
) -> Result<&'l str, AllocError> {
    let mut told = line;
    for source in sources {
        let shown = Shown(source.name);
        let front = format!(in alloc; "{shown}: ")?;
        if let Some(rest) = line.strip_prefix(front.as_str())
            && rest.len() < told.len()
        {
            told = rest;
        }
    }
    Ok(told)
}

// Whether a word allows what is told, a pointer and what is lost there.
fn allows(word: &str, told: &str) -> bool {
    if word == UNKNOWN_MEMBERS {
        return told.ends_with(DROPPED);
    }
    let pointer = told.strip_prefix('/').unwrap_or(told);
    match pointer.strip_prefix(word.strip_prefix('/').unwrap_or(word)) {
        Some(rest) => rest.starts_with('/') || rest.starts_with(": "),
        None => false,
    }
}
