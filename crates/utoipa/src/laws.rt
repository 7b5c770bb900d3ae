//! What holds of all documents: the theorem of this library, and the laws of reading, writing, merging and nesting, as contracts of functions.
ghost use Rattle.std.specs.Prelude.{◌≡◌, ◌↔◌, ℕ, List, All, map, false};
ghost use Rattle.serde_json.specs.View.{view};
ghost use Rattle.serde_json.specs.Written.{has_float};
ghost use Rattle.utoipa_base.specs.Docs.{Doc};
ghost use Rattle.utoipa_base.specs.Extensions.{is_extension};
ghost use Rattle.utoipa_base.specs.NormalForm.{normal_form};
ghost use Rattle.utoipa_base.specs.WellFormed.{IsPlain, IsWellFormed};
ghost use Rattle.utoipa_base.specs.Writing.{write};
ghost use Rattle.utoipa_merging.specs.Merged.{IsInKeyOrder, IsMerged};
ghost use Rattle.utoipa_merging.specs.Nested.{IsNested};
ghost use Rattle.utoipa.specs.MainTheorem.{IsReadBack, MainTheorem};
ghost use Rattle.utoipa.specs.Merging.{leaves_of};
ghost use Rattle.utoipa.specs.OpenApi.{openapi_doc};

use crate::bracketing::{Bracketing, merge_all, merge_tree};
use crate::document::OpenApi;
use crate::merging::MergeFault;
use serde_json::Value;
use std::alloc::{AllocError, Global};
pub use utoipa_base::laws::{
    comes_back, component_stands_there, members_have_fewer_values, normal_form_twice,
    one_normal_form, reads_back, stays_plain, unambiguous_exactly, what_is_read,
};
use utoipa_base::{Counted, Documented, ReadFault, Tree};
pub use utoipa_merging::laws::{
    any_brackets, brackets_agree, copy_changes_nothing, merged_in_one_way, merged_in_some_way,
    merged_no_deeper, merged_stays_normal, merged_stays_plain, merged_stays_well_formed,
    merging_composes, merging_texts_composes, nested_in_one_way, nested_in_some_way, nested_paths,
    nested_stays_normal, nested_stays_plain, nested_stays_well_formed, nothing_added, one_document,
    text_of_what_is_merged, texts_are_sorted, texts_in_any_brackets, texts_merged_in_one_way,
    three_documents, what_is_read_fits, what_is_read_is_in_key_order, written_text_reads_back,
};

/// What the calls of [`main_theorem`] answer.
#[derive(Drop)]
pub struct Answers<T> {
    /// What the tree was read as.
    pub read: Counted<T>,
    /// The tree that the value was written as.
    pub written: Result<Value, AllocError>,
    /// What the value was read back as, from the tree that it is written as.
    pub read_back: Result<T, ReadFault>,
    /// What the documents in brackets were merged to.
    pub merged: Result<OpenApi, MergeFault>,
    /// What the documents of the list were merged to at once, none where there are none.
    pub merged_at_once: Result<Option<OpenApi>, MergeFault>,
}

/// The theorem of this library, for all trees, values and documents. The first part is laws, which need no call:
///
/// 1. A well-formed value reads back, from the tree that it is written as, as its normal form.
/// 2. One document or more have exactly one merged document by the slots' rules, its maps in the order of their keys. Nesting one document into
///    another gives exactly one, too.
/// 3. A value of `OpenApi` is an OpenAPI Object (section 4.8.1).
///
/// The second part says what each call answers. Each may also answer that memory ran out:
///
/// 4. A tree is read as exactly the document that the member tables give, and is refused exactly where they give none or the tree holds a
///    fraction; on the way at most as many schemas are read as the tree has values.
/// 5. A value is written as the tree of the member tables, and a well-formed one is read back from it as its normal form.
/// 6. Documents, in any brackets or in a list, are merged to the merged document. They are refused exactly where there are two or more and a
///    server or a tag holds a fraction. Well-formed documents are merged to a well-formed one, and documents in normal form to one in normal form.
pub fn main_theorem<T: Tree>(
    alloc: Global,
    tree: &Value,
    value: &T,
    documents: Bracketing,
    listed: Vec<OpenApi>,
) -> Answers<T>
    ensures { MainTheorem T.kind T.doc ⟦<OpenApi as Documented>⟧.kind ⟦<OpenApi as Documented>⟧.doc (view tree.now) value.now
        (leaves_of documents) listed.items result }
{
    Answers {
        read: T::from_value_counted(alloc, tree),
        written: value.to_value(alloc),
        read_back: written_and_read(alloc, value),
        merged: merge_tree(alloc, documents),
        merged_at_once: merge_all(alloc, listed),
    }
}

/// What holds of a document that others are merged into, whichever call merged them: no other has its keys in order; and it is plain,
/// well-formed or in normal form where they are. It is at hand, so nothing has to be known of the order of its keys, through which the call goes
/// once.
pub fn what_is_merged(merged: &OpenApi)
    ensures alone { (documents : List Doc) (d : Doc) → IsMerged documents (openapi_doc merged.now)
        → IsMerged documents d → IsInKeyOrder d
        → d ≡ openapi_doc merged.now }
    ensures plain { (documents : List Doc) → IsMerged documents (openapi_doc merged.now) → All IsPlain documents
        → IsPlain (openapi_doc merged.now) }
    ensures well_formed { (documents : List OpenApi) → IsMerged (map openapi_doc documents) (openapi_doc merged.now)
        → All IsWellFormed (map openapi_doc documents) → IsWellFormed (openapi_doc merged.now) }
    ensures normal { (documents : List Doc) → IsMerged documents (openapi_doc merged.now)
        → All (λ d. normal_form d ≡ d) documents
        → normal_form (openapi_doc merged.now) ≡ openapi_doc merged.now }
{
    merged.in_key_order();
}

/// What holds of a document with another nested into it, whichever call nested it: no other has its keys in order; it is plain or in normal
/// form where the two are; and where they are well-formed, it is so exactly where no answer begins `x-`.
pub fn what_is_nested(nested: &OpenApi)
    ensures alone { (answers : List (List ℕ)) (own other : OpenApi) (d : Doc)
        → IsNested answers (openapi_doc own) (openapi_doc other) (openapi_doc nested.now)
        → IsNested answers (openapi_doc own) (openapi_doc other) d → IsInKeyOrder d → d ≡ openapi_doc nested.now }
    ensures plain { (answers : List (List ℕ)) (own other : OpenApi)
        → IsNested answers (openapi_doc own) (openapi_doc other) (openapi_doc nested.now)
        → IsPlain (openapi_doc own) → IsPlain (openapi_doc other) → IsPlain (openapi_doc nested.now) }
    ensures well_formed { (answers : List (List ℕ)) (own other : OpenApi)
        → IsNested answers (openapi_doc own) (openapi_doc other) (openapi_doc nested.now)
        → IsWellFormed (openapi_doc own) → IsWellFormed (openapi_doc other)
        → IsWellFormed (openapi_doc nested.now) ↔ All (λ a. is_extension a ≡ false) answers }
    ensures normal { (answers : List (List ℕ)) (own other : OpenApi)
        → IsNested answers (openapi_doc own) (openapi_doc other) (openapi_doc nested.now)
        → normal_form (openapi_doc own) ≡ openapi_doc own → normal_form (openapi_doc other) ≡ openapi_doc other
        → normal_form (openapi_doc nested.now) ≡ openapi_doc nested.now }
{
    nested.in_key_order();
}

// The value, read back from the tree that it is written as.
fn written_and_read<T: Tree>(alloc: Global, value: &T) -> Result<T, ReadFault>
    ensures { IsReadBack T.doc value.now result }
{
    reads_back(value);
    let tree = value.to_value(alloc)?;
    T::from_value(alloc, &tree)
}

/// A plain value, in which no tree holds a fraction, is written as a plain tree.
pub fn is_written_plain<T: Tree>(value: &T)
    ensures { IsPlain (T.doc value.now) → has_float (write (T.doc value.now)) ≡ false }
{}
