//! What merging the documents of a text drops, in lines.
ghost use Rattle.std.specs.Prelude.{◌≡◌, ◌++◌, IfOk, IfErr, OnOk, string_bytes};
ghost use Rattle.utoipa_command.specs.Answers.{IsCauseOfText};
ghost use Rattle.utoipa_command.specs.Dropped.{AreConflicts, documents_kind};
ghost use Rattle.utoipa_conflicts.specs.Texts.{told_line, told_lines};
ghost use Rattle.utoipa_conflicts.specs.Views.{all_told, told_of};

use crate::answer::document_of;
use crate::refusal::Refusal;
use std::alloc::{AllocError, Global};
use utoipa::openapi::OpenApi;
use utoipa_conflicts::{DocumentConflict, conflicts};

/// Adds the line of a conflict. Fails where memory runs out.
fn put_line(conflict: &DocumentConflict, lines: &mut String) -> Result<(), AllocError>
    ensures { OnOk result (string_bytes lines.new ≡ string_bytes lines.old ++ told_line (told_of conflict.now)) }
{
    write!(lines, "{conflict}\n")
}

/// The lines of conflicts. Fails where memory runs out.
fn lines_of(alloc: Global, conflicts: &[DocumentConflict]) -> Result<String, AllocError>
    ensures { IfOk result (λ lines. string_bytes lines ≡ told_lines (all_told conflicts.now)) }
{
    let mut lines = String::new(alloc);
    for conflict in conflicts {
        put_line(conflict, &mut lines)?;
    }
    Ok(lines)
}

/// The lines of what merging the documents of a text drops, which is to be a list of them: a line for each value of a document in whose place
/// another document decides, with both by their numbers, counted from 0. Fails with why the text is refused, where it is no such list, and
/// where memory runs out.
pub fn dropped(alloc: Global, text: &[u8]) -> Result<String, Refusal>
    ensures ok { IfOk result (λ lines. AreConflicts text.now (string_bytes lines)) }
    ensures err { IfErr result (IsCauseOfText documents_kind text.now) }
{
    let documents = document_of::<Vec<OpenApi>>(alloc, text)?;
    let conflicts = conflicts(alloc, &documents)?;
    Ok(lines_of(alloc, &conflicts)?)
}
