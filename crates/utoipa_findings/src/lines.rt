//! The lines of what is found in a file.
ghost use Rattle.std.specs.Prelude.{◌≡◌, ◌++◌, IfOk, OnOk, string_bytes};
ghost use Rattle.utoipa_findings.specs.Lines.{finding_line, lines_of as lines_text};
ghost use Rattle.utoipa_findings.specs.Views.{all_findings, finding_of};

use crate::finding::Finding;
use std::alloc::{AllocError, Global};
use utoipa_check::Shown;

/// Adds the line of a finding. Fails where memory runs out.
fn put_line(name: &str, finding: &Finding<'_>, lines: &mut String) -> Result<(), AllocError>
    ensures { OnOk result (string_bytes lines.new
        ≡ string_bytes lines.old ++ finding_line name.now (finding_of finding.now)) }
{
    let name = Shown(name);
    write!(lines, "{name}: {finding}\n")
}

/// Adds the lines of what is found in a file of this name. Fails where memory runs out.
pub(crate) fn put_lines(
    name: &str,
    found: &[Finding<'_>],
    lines: &mut String,
) -> Result<(), AllocError>
    ensures { OnOk result
        (string_bytes lines.new ≡ string_bytes lines.old ++ lines_text name.now (all_findings found.now)) }
{
    for finding in found {
        put_line(name, finding, lines)?;
    }
    Ok(())
}

/// The lines of what is found in a file of this name. Fails where memory runs out.
pub(crate) fn lines_of(
    alloc: Global,
    name: &str,
    found: &[Finding<'_>],
) -> Result<String, AllocError>
    ensures { IfOk result (λ lines. string_bytes lines ≡ lines_text name.now (all_findings found.now)) }
{
    let mut lines = String::new(alloc);
    put_lines(name, found, &mut lines)?;
    Ok(lines)
}
