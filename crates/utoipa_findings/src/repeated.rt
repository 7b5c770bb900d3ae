//! The names of a text that stand again in their objects.
ghost use Rattle.std.specs.Prelude.{◌≡◌, ◌++◌, IfOk, OnOk, map, string_bytes};
ghost use Rattle.json.specs.Value.{value_view};
ghost use Rattle.utoipa_duplicates.specs.Duplicates.{duplicates};
ghost use Rattle.utoipa_findings.specs.Findings as specs;
ghost use Rattle.utoipa_findings.specs.Lines.{lines_of as lines_text};
ghost use Rattle.utoipa_findings.specs.Views.{all_findings};

use crate::finding::{Finding, What};
use crate::lines::put_lines;
use json::{Error, Scratch, Value};
use std::alloc::{AllocError, Global};
use utoipa_duplicates::{may_have_duplicates, places_in_value};

/// The names that stand again in the objects of a value, each at its place, in the order of the text. A value of the crate `json` keeps each member,
/// where a tree keeps the last of a name. Fails where memory runs out.
pub fn repeated_names<'v, 'a>(
    alloc: Global,
    value: &'v Value<'a>,
) -> Result<Vec<Finding<'a>>, AllocError>
    ensures { IfOk result
        (λ v. all_findings v.items ≡ map specs.repeated_at (duplicates (value_view value.now))) }
{
    let mut found = Vec::new(alloc);
    for pointer in places_in_value(alloc, value)? {
        found.push(Finding {
            pointer,
            what: What::Repeated,
        })?;
    }
    Ok(found)
}

/// Adds the lines of the names that stand again in the objects of a value of a file. Fails where memory runs out.
fn put_value_lines(
    alloc: Global,
    name: &str,
    value: &Value<'_>,
    lines: &mut String,
) -> Result<(), AllocError>
    ensures { OnOk result (string_bytes lines.new ≡ string_bytes lines.old
        ++ lines_text name.now (map specs.repeated_at (duplicates (value_view value.now)))) }
{
    let found = repeated_names(alloc, value)?;
    put_lines(name, &found, lines)
}

/// The lines of the names that stand again in the objects of a file's text, by its values. Fails where memory runs out.
fn all_repeated_lines(alloc: Global, name: &str, text: &str) -> Result<String, AllocError>
    ensures { IfOk result
        (λ lines. string_bytes lines ≡ lines_text name.now (specs.repeated_names text.now)) }
{
    let mut lines = String::new(alloc);
    let mut scratch = Scratch::new(alloc);
    let parsed = Value::parse(alloc, text, &mut scratch);
    match &parsed {
        Ok(value) => put_value_lines(alloc, name, value, &mut lines)?,
        Err(Error::Invalid) => {}
        Err(_) => return Err(AllocError),
    }
    Ok(lines)
}

/// The lines of the names that stand again in the objects of a file's text. None of a text that is no JSON. Fails where memory runs out.
pub(crate) fn repeated_lines(alloc: Global, name: &str, text: &str) -> Result<String, AllocError>
    ensures { IfOk result
        (λ lines. string_bytes lines ≡ lines_text name.now (specs.repeated_names text.now)) }
{
    if may_have_duplicates(alloc, text)? {
        return all_repeated_lines(alloc, name, text);
    }
    Ok(String::new(alloc))
}
