//! What is dropped where documents are merged, told of the documents and not of their trees.
ghost use Rattle.std.specs.Prelude.{◌≡◌, ◌++◌, [], true, Some, All, IfOk, length, map, string_bytes, vec_len};
ghost use Rattle.utoipa_base.specs.Docs.{Doc};
ghost use Rattle.utoipa_base.specs.Kinds.{named, open_api_object};
ghost use Rattle.utoipa_base.specs.Unambiguous.{is_unambiguous};
ghost use Rattle.utoipa_base.specs.Writing.{write};
ghost use Rattle.utoipa_conflicts.specs.Deciders.{trees_of};
ghost use Rattle.utoipa_conflicts.specs.Merged as specs;
ghost use Rattle.utoipa_conflicts.specs.Nested.{behind, nested_paths as nested_paths_of, told_nested};
ghost use Rattle.utoipa_conflicts.specs.Texts.{told_text};
ghost use Rattle.utoipa_conflicts.specs.Views.{conflict_of, item_of, told_of, all_told};
ghost use Rattle.utoipa_merging.specs.Merged.{IsInKeyOrder, IsMerged};

use crate::conflict::{Conflict, tree_conflicts};
use crate::nested::{ItemAt, path_items, tree_nested_conflicts};
use serde_json::Value;
use std::alloc::{AllocError, Global};
use std::fmt;
use utoipa_base::Tree;
use utoipa_check::Shown;

/// A value of a document that is dropped where documents are merged.
#[derive(Debug, Drop)]
pub struct DocumentConflict {
    /// The place of the value, as a JSON Pointer (RFC 6901).
    pub pointer: String,
    /// The number of the document that decides there. What it has there is kept, and where it has nothing, nothing is.
    pub kept: usize,
    /// The number of the document whose value is dropped.
    pub dropped: usize,
}

/// A conflict, with its place as a text. Fails where memory runs out.
fn in_text(alloc: Global, conflict: &Conflict<'_>) -> Result<DocumentConflict, AllocError>
    ensures { IfOk result (λ told. told_of told ≡ specs.in_text (conflict_of conflict.now)) }
{
    let place = &conflict.pointer;
    let pointer = format!(in alloc; "{place}")?;
    Ok(DocumentConflict {
        pointer,
        kept: conflict.kept,
        dropped: conflict.dropped,
    })
}

/// Conflicts, each with its place as a text. Fails where memory runs out.
fn all_in_text(
    alloc: Global,
    conflicts: &[Conflict<'_>],
) -> Result<Vec<DocumentConflict>, AllocError>
    ensures { IfOk result (λ v. all_told v.items ≡ map (λ c. specs.in_text (conflict_of c)) conflicts.now) }
{
    let mut told = Vec::new(alloc);
    for conflict in conflicts {
        told.push(in_text(alloc, conflict)?)?;
    }
    Ok(told)
}

/// The trees that documents are written as. Fails where memory runs out.
pub fn trees_of_documents<T: Tree>(alloc: Global, documents: &[T]) -> Result<Vec<Value>, AllocError>
    ensures { IfOk result (λ v. trees_of v.items ≡ map (λ d. write (T.doc d)) documents.now) }
{
    let mut trees = Vec::new(alloc);
    for document in documents {
        trees.push(document.to_value(alloc)?)?;
    }
    Ok(trees)
}

/// What is dropped where documents are merged: each value that a document has in a slot where another one decides and has another value, or
/// none, document by document, as [`tree_conflicts`] lists it of the trees that they are written as. Fails where memory runs out.
///
/// A slot is what merging takes from one document: a member of the document but its servers, security requirements and tags, which are joined;
/// a component under its name; an operation at its path and method; what else an item says; an extension of the paths or of the components.
/// Two values are one where they are written as one tree.
///
/// It is asked before the documents are merged, for merging takes them; a document keeps the number that it has in the list. Of two documents
/// that call a component alike, one ends with references that lead to the other's: here each is told.
///
/// Of OpenAPI documents of which `is_unambiguous` answers true these are the values that the merged document lacks, all of them and no others:
/// where there is none, each value that a document has in a slot stands there in the merged document.
pub fn conflicts<T: Tree>(
    alloc: Global,
    documents: &[T],
) -> Result<Vec<DocumentConflict>, AllocError>
    ensures exact { IfOk result (λ v. all_told v.items ≡ specs.told (map T.doc documents.now)) }
    ensures lost_of_any { IfOk result (λ v. (d : Doc) → specs.AreMergedInto (map T.doc documents.now) d
        → specs.TellWhatIsLost (map T.doc documents.now) d (all_told v.items)) }

    // Of a type of documents nothing else has to be known.
    ensures lost { T.kind ≡ named open_api_object → IfOk result (λ v. (d : Doc) → All (λ d. is_unambiguous d ≡ true) (map T.doc documents.now)
        → IsMerged (map T.doc documents.now) d → IsInKeyOrder d
        → specs.TellWhatIsLost (map T.doc documents.now) d (all_told v.items)) }
    ensures none { T.kind ≡ named open_api_object → IfOk result (λ v. v.items ≡ [] → (d : Doc) → All (λ d. is_unambiguous d ≡ true) (map T.doc documents.now)
        → IsMerged (map T.doc documents.now) d → IsInKeyOrder d → specs.IsAllThere (map T.doc documents.now) d) }
{
    let trees = trees_of_documents(alloc, documents)?;
    let conflicts = tree_conflicts(alloc, &trees)?;
    all_in_text(alloc, &conflicts)
}

/// A base, and a path behind it. Fails where memory runs out.
fn joined(alloc: Global, base: &str, path: &str) -> Result<String, AllocError>
    ensures { IfOk result (λ s. string_bytes s ≡ base.now ++ path.now) }
{
    let mut text = String::with_capacity(alloc, base.len() + path.len())?;
    text.push_str(base)?;
    text.push_str(path)?;
    Ok(text)
}

/// The paths of some items, each behind a base. Fails where memory runs out.
fn all_joined(alloc: Global, base: &str, items: &Vec<ItemAt<'_>>) -> Result<Vec<String>, AllocError>
    ensures { IfOk result (λ v. map string_bytes v.items ≡ map (λ i. base.now ++ (item_of i).0) items.now.items) }
{
    let mut paths = Vec::new(alloc);
    for item in items {
        paths.push(joined(alloc, base, item.path)?)?;
    }
    Ok(paths)
}

/// The paths of a document. Where the document is nested, a composer of paths answers to each of them, in this order. Fails where memory runs out.
pub fn nested_paths<T: Tree>(alloc: Global, nested: &T) -> Result<Vec<String>, AllocError>
    ensures paths { IfOk result (λ v. map string_bytes v.items ≡ nested_paths_of (write (T.doc nested.now))) }
    ensures count { IfOk result (λ v. vec_len v ≡ length (nested_paths_of (write (T.doc nested.now)))) }
{
    let tree = nested.to_value(alloc)?;
    let items = path_items(alloc, &tree)?;
    all_joined(alloc, "", &items)
}

/// What is dropped where a document, 1, is nested into another, 0, and a composer of paths gives these answers, one to each of the
/// [`nested_paths`]: the items in whose place a nested one stands, the extensions of the nested paths, and what merging drops of the rest, as
/// [`tree_nested_conflicts`] lists it of the trees that they are written as. Of two paths that are answered alike the item of the earlier is
/// dropped too, and told as of document 1 on both sides. Fails where memory runs out.
pub fn composed_conflicts<T: Tree>(
    alloc: Global,
    own: &T,
    nested: &T,
    answers: &[String],
) -> Result<Vec<DocumentConflict>, AllocError>
    requires { length answers.now ≡ length (nested_paths_of (write (T.doc nested.now))) }
    ensures { IfOk result
        (λ v. all_told v.items ≡ told_nested (map string_bytes answers.now) (T.doc own.now) (T.doc nested.now)) }
{
    let own = own.to_value(alloc)?;
    let nested = nested.to_value(alloc)?;
    let conflicts = tree_nested_conflicts(alloc, &own, &nested, answers)?;
    all_in_text(alloc, &conflicts)
}

/// What is dropped where a document, 1, is nested into another, 0, and each of its paths comes behind a base: the items in whose place a nested
/// one stands, the extensions of the nested paths, and what merging drops of the rest. Fails where memory runs out.
pub fn nested_conflicts<T: Tree>(
    alloc: Global,
    own: &T,
    base: &str,
    nested: &T,
) -> Result<Vec<DocumentConflict>, AllocError>
    ensures { IfOk result
        (λ v. all_told v.items
        ≡ told_nested (behind base.now (write (T.doc nested.now))) (T.doc own.now) (T.doc nested.now)) }
{
    let tree = nested.to_value(alloc)?;
    let items = path_items(alloc, &tree)?;
    let answers = all_joined(alloc, base, &items)?;
    composed_conflicts(alloc, own, nested, &answers)
}

/// The JSON Pointer of the place, as it is shown on a line, whose value is dropped there, and which document decides.
impl fmt::Display for DocumentConflict {
    ghost output = { λ c. Some (told_text (told_of c)) };

    fn fmt<W: fmt::Write>(&self, f: &mut fmt::Formatter<W>) -> fmt::Result {
        let pointer = Shown(self.pointer.as_str());
        let dropped = self.dropped;
        let kept = self.kept;
        write!(
            f,
            "{pointer}: document {dropped}'s value is dropped, since document {kept} decides"
        )
    }
}
