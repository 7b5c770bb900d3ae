//! What calls the answers with the files.

use crate::allowed::not_allowed;
use crate::files::{bytes_of, write};
use crate::hints::tell_version;
use crate::progress::Progress;
use anyhow::Result;
use clap::ArgMatches;
use std::process::ExitCode;
use utoipa_check::Shown;
use utoipa_command::files;
use utoipa_command::files::{Form, Layout, Refusal, Source, Written};

// What a text in UTF-8 may begin with, to say that it is one.
const BYTE_ORDER_MARK: &[u8] = b"\xEF\xBB\xBF";

/// Does what the words ask, and says how that ended.
pub fn perform(rt: &HostRuntime, matches: &ArgMatches<'_>) -> Result<ExitCode> {
    match matches.subcommand() {
        Some(("check", words)) => check(rt, words),
        Some(("format", words)) => format(rt, words, form(words)),
        // What is upgraded is in normal form, too.
        Some(("upgrade", words)) => format(rt, words, Form::Upgraded),
        Some(("merge", words)) => merge(rt, words),
        Some(("nest", words)) => nest(rt, words),
        Some(("operations", words)) => operations(rt, words),
        Some(("stats", words)) => stats(rt, words),
        // Each subcommand stands above.
        _ => Ok(ExitCode::from(2)),
    }
}

// The form in which the trees of files are looked at.
fn form(words: &ArgMatches<'_>) -> Form {
    if words.get_flag("as-is") {
        Form::AsIs
    } else if words.get_flag("upgrade") {
        Form::Upgraded
    } else {
        Form::Adapted
    }
}

// A file, without a mark that its bytes are UTF-8.
fn source<'a>(form: Form, name: &'a str, bytes: &'a [u8]) -> Source<'a> {
    Source {
        name,
        bytes: bytes.strip_prefix(BYTE_ORDER_MARK).unwrap_or(bytes),
        form,
    }
}

// How a document is to be laid out.
fn layout(words: &ArgMatches<'_>) -> Layout {
    if words.get_flag("compact") {
        Layout::Compact
    } else {
        Layout::Lines
    }
}

// Tells why files have no answer.
fn refuse(rt: &HostRuntime, sources: &[Source<'_>], refusal: Refusal) -> Result<ExitCode> {
    match refusal {
        Refusal::Told(lines) => {
            eprint!(rt; "{lines}")?;
            for source in sources {
                tell_version(rt, source, lines.as_str())?;
            }
        }
        Refusal::Memory => eprintln!(rt; "openapi: out of memory")?,
    }
    Ok(ExitCode::FAILURE)
}

// Writes what is listed of a file to standard output, or tells why there is nothing.
fn answer_list(
    rt: &HostRuntime,
    source: Source<'_>,
    made: Result<String, Refusal>,
) -> Result<ExitCode> {
    match made {
        Ok(lines) => {
            write(rt, None, lines.as_str())?;
            Ok(ExitCode::SUCCESS)
        }
        Err(refusal) => refuse(rt, &[source], refusal),
    }
}

// Whether standard input is named more than once, which is told: it can be read once.
fn is_read_twice(rt: &HostRuntime, names: &[&str]) -> Result<bool> {
    let mut count = 0usize;
    for name in names {
        count = count.saturating_add(usize::from(*name == "-"));
    }
    if count > 1 {
        eprintln!(rt; "openapi: standard input can't be read twice")?;
    }
    Ok(count > 1)
}

// All that stands in a file, or none where it can't be read, which is told.
fn read(rt: &HostRuntime, name: &str) -> Result<Option<Vec<u8>>> {
    match bytes_of(rt, name) {
        Ok(bytes) => Ok(Some(bytes)),
        Err(error) => {
            let name = Shown(name);
            eprintln!(rt; "{name}: {error:#}")?;
            Ok(None)
        }
    }
}

// Checks a file, and says whether something was found: that it can't be read, for one.
fn check_file(rt: &HostRuntime, form: Form, name: &str) -> Result<bool> {
    let Some(bytes) = read(rt, name)? else {
        return Ok(true);
    };
    let file = source(form, name, bytes.as_slice());
    let lines = files::check(rt.alloc(), file)?;
    write(rt, None, lines.as_str())?;
    tell_version(rt, &file, lines.as_str())?;
    Ok(!lines.is_empty())
}

fn check(rt: &HostRuntime, words: &ArgMatches<'_>) -> Result<ExitCode> {
    let names = words.get_strs("FILE").unwrap_or(&[]);
    if is_read_twice(rt, names)? {
        return Ok(ExitCode::from(2));
    }
    let mut progress = Progress::new(rt);
    let mut found = false;
    for (at, name) in names.iter().enumerate() {
        progress.step(rt, "are checked", at, names.len());
        found |= check_file(rt, form(words), name)?;
    }
    Ok(if found {
        ExitCode::FAILURE
    } else {
        ExitCode::SUCCESS
    })
}

// Whether nothing at all may be lost.
fn is_strict(words: &ArgMatches<'_>) -> bool {
    words.get_flag("strict") && words.get_strs("WHAT").is_none()
}

// Tells what is lost, and writes the document where it is to be written, or tells why there is none.
fn answer_document(
    rt: &HostRuntime,
    words: &ArgMatches<'_>,
    sources: &[Source<'_>],
    made: Result<Written, Refusal>,
) -> Result<ExitCode> {
    match made {
        Ok(written) => {
            let allowed = words.get_strs("WHAT").unwrap_or(&[]);
            let lost = not_allowed(rt.alloc(), sources, allowed, written.lost.as_str())?;
            eprint!(rt; "{lost}")?;
            if words.get_flag("strict") && !lost.is_empty() {
                return Ok(ExitCode::FAILURE);
            }
            write(rt, words.get_str("OUT"), written.text.as_str())?;
            Ok(ExitCode::SUCCESS)
        }
        Err(refusal) => refuse(rt, sources, refusal),
    }
}

fn format(rt: &HostRuntime, words: &ArgMatches<'_>, form: Form) -> Result<ExitCode> {
    let name = words.get_str("FILE").unwrap_or("-");
    let Some(bytes) = read(rt, name)? else {
        return Ok(ExitCode::FAILURE);
    };
    let file = source(form, name, bytes.as_slice());
    let made = files::format(rt.alloc(), layout(words), is_strict(words), file);
    answer_document(rt, words, &[file], made)
}

// The bytes of some files, or none where some of them can't be read, each of which is told.
fn read_all(rt: &HostRuntime, names: &[&str]) -> Result<Option<Vec<Vec<u8>>>> {
    let mut progress = Progress::new(rt);
    let mut files = Vec::new(rt.alloc());
    let mut all = true;
    for (at, name) in names.iter().enumerate() {
        progress.step(rt, "are read", at, names.len());
        match read(rt, name)? {
            Some(bytes) => files.push(bytes)?,
            None => all = false,
        }
    }
    Ok(all.then_some(files))
}

// Files by their names and bytes.
fn sources_of<'a>(
    rt: &HostRuntime,
    form: Form,
    names: &[&'a str],
    files: &'a [Vec<u8>],
) -> Result<Vec<Source<'a>>> {
    let mut sources = Vec::new(rt.alloc());
    for (name, bytes) in names.iter().zip(files.iter()) {
        sources.push(source(form, *name, bytes.as_slice()))?;
    }
    Ok(sources)
}

fn merge(rt: &HostRuntime, words: &ArgMatches<'_>) -> Result<ExitCode> {
    let names = words.get_strs("FILE").unwrap_or(&[]);
    if is_read_twice(rt, names)? {
        return Ok(ExitCode::from(2));
    }
    let Some(files) = read_all(rt, names)? else {
        return Ok(ExitCode::FAILURE);
    };
    let sources = sources_of(rt, form(words), names, files.as_slice())?;
    merge_sources(rt, words, sources.as_slice())
}

// The bytes of all.
fn size_of(sources: &[Source<'_>]) -> usize {
    let mut size: usize = 0;
    for source in sources {
        size = size.saturating_add(source.bytes.len());
    }
    size
}

// Merges files, and tells what is lost by that.
fn merge_sources(
    rt: &HostRuntime,
    words: &ArgMatches<'_>,
    sources: &[Source<'_>],
) -> Result<ExitCode> {
    if sources.is_empty() {
        // No call is without a file.
        return Ok(ExitCode::from(2));
    }
    Progress::new(rt).begin(rt, "merging", size_of(sources));
    let made = files::merge(rt.alloc(), layout(words), is_strict(words), sources);
    answer_document(rt, words, sources, made)
}

fn nest(rt: &HostRuntime, words: &ArgMatches<'_>) -> Result<ExitCode> {
    // `/api/` is `/api`.
    let base = words.get_str("BASE").unwrap_or("").trim_end_matches('/');
    if !files::is_base(base) {
        let base = Shown(base);
        eprintln!(rt; "openapi: the base `{base}` does not begin with `/`")?;
        return Ok(ExitCode::from(2));
    }
    let name = words.get_str("FILE").unwrap_or("-");
    let nested_name = words.get_str("NESTED").unwrap_or("-");
    if is_read_twice(rt, &[name, nested_name])? {
        return Ok(ExitCode::from(2));
    }
    let Some(files) = read_all(rt, &[name, nested_name])? else {
        return Ok(ExitCode::FAILURE);
    };
    let sources = sources_of(rt, form(words), &[name, nested_name], files.as_slice())?;
    nest_sources(rt, words, base, sources.as_slice())
}

// Nests the second of two files into the first, and tells what is lost by that.
fn nest_sources(
    rt: &HostRuntime,
    words: &ArgMatches<'_>,
    base: &str,
    sources: &[Source<'_>],
) -> Result<ExitCode> {
    let [own, nested] = sources else {
        // No call is without both.
        return Ok(ExitCode::from(2));
    };
    let made = files::nest(
        rt.alloc(),
        layout(words),
        is_strict(words),
        base,
        *own,
        *nested,
    );
    answer_document(rt, words, sources, made)
}

fn operations(rt: &HostRuntime, words: &ArgMatches<'_>) -> Result<ExitCode> {
    let name = words.get_str("FILE").unwrap_or("-");
    let Some(bytes) = read(rt, name)? else {
        return Ok(ExitCode::FAILURE);
    };
    let file = source(form(words), name, bytes.as_slice());
    let made = files::operations(rt.alloc(), file);
    answer_list(rt, file, made)
}

fn stats(rt: &HostRuntime, words: &ArgMatches<'_>) -> Result<ExitCode> {
    let name = words.get_str("FILE").unwrap_or("-");
    let Some(bytes) = read(rt, name)? else {
        return Ok(ExitCode::FAILURE);
    };
    let file = source(form(words), name, bytes.as_slice());
    let made = files::stats(rt.alloc(), file);
    answer_list(rt, file, made)
}
