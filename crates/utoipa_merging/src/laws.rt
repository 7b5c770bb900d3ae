//! What holds of all documents that are merged or nested, as contracts of functions that do nothing.
ghost use Rattle.std.specs.Prelude.{◌≡◌, ◌≤◌, ◌↔◌, ◌∷◌, ◌++◌, ℕ, List, [], All, Some, false, length, option_and_then};
ghost use Rattle.serde_json.specs.Data.{Data, depth};
ghost use Rattle.serde_json.specs.Read.{max_depth, read as read_text};
ghost use Rattle.utoipa_base.specs.Docs.{Doc};
ghost use Rattle.utoipa_base.specs.Extensions.{is_extension};
ghost use Rattle.utoipa_base.specs.Kinds.{Kind, named, open_api_object};
ghost use Rattle.utoipa_base.specs.NormalForm.{normal_form};
ghost use Rattle.utoipa_base.specs.Reading.{read};
ghost use Rattle.utoipa_base.specs.Shape.{IsOf, value_of};
ghost use Rattle.utoipa_base.specs.WellFormed.{IsPlain, IsUnambiguous, IsWellFormed};
ghost use Rattle.utoipa_base.specs.Writing.{write};
ghost use Rattle.utoipa_merging.specs.Example.{first_api, merged_api, second_api, third_api};
ghost use Rattle.utoipa_merging.specs.Merged.{
  AddsNothing,
  Brackets,
  IsInKeyOrder,
  IsMerged,
  IsMergedByPairs,
  IsOpenApi,
  leaves,
};
ghost use Rattle.utoipa_merging.specs.Nested.{IsNested, mounted_at};
ghost use Rattle.utoipa_merging.specs.Slots.{ItemSlot, entries_in, extension_at, has_extensions, item_slot, path_slot, paths_of};
ghost use Rattle.utoipa_merging.specs.Sorted.{IsSorted};
ghost use Rattle.utoipa_merging.specs.Texts.{AreTextsMerged, AreTextsMergedByPairs, IsTextOf, IsUnambiguousText, IsWrittenAs, TextBrackets, text_leaves};

/// Merging what two lists of documents are merged to merges the documents of both. The lists may be of any length.
pub fn merging_composes()
    ensures { (xs ys : List Doc) (a b d : Doc) → IsMerged xs a → IsMerged ys b → IsMerged (a ∷ b ∷ []) d
        → IsMerged (xs ++ ys) d }
{}

/// Merging pair by pair, in any brackets, merges the documents from left to right.
pub fn any_brackets()
    ensures { (b : Brackets) (d : Doc) → IsMergedByPairs b d → IsMerged (leaves b) d }
{}

/// In any two brackets the same documents are merged to one document, where its maps stand in the order of their keys.
pub fn brackets_agree()
    ensures { (b c : Brackets) (d e : Doc) → leaves b ≡ leaves c → IsMergedByPairs b d → IsMergedByPairs c e
        → IsInKeyOrder d → IsInKeyOrder e → d ≡ e }
{}

/// Documents are merged in one way at most, up to the order of the keys.
pub fn merged_in_one_way()
    ensures { (documents : List Doc) (c d : Doc) → IsMerged documents c → IsMerged documents d
        → IsInKeyOrder c → IsInKeyOrder d → c ≡ d }
{}

/// One document or more have a merged document with its maps in the order of their keys, whatever the documents are. There is no other
/// ([`merged_in_one_way`]).
pub fn merged_in_some_way()
    ensures { (d : Doc) (documents : List Doc) → All IsOpenApi (d ∷ documents)
        → (merged : Doc) × IsMerged (d ∷ documents) merged × IsInKeyOrder merged }
{}

/// A document alone is merged already.
pub fn one_document()
    ensures { (d : Doc) → IsOpenApi d → IsMerged (d ∷ []) d }
{}

/// Merging a document with its copy changes nothing.
pub fn copy_changes_nothing()
    ensures { (d : Doc) → IsOpenApi d → IsMerged (d ∷ d ∷ []) d }
{}

/// Merging a document into which nothing but the fixed parts was put changes nothing, whatever those are. An empty list is
/// not nothing: of servers that are absent and servers that are empty come empty servers.
pub fn nothing_added()
    ensures { (d other : Doc) → IsOpenApi d → AddsNothing other → IsMerged (d ∷ other ∷ []) d }
{}

/// A document is nested into another in one way at most, up to the order of the keys.
pub fn nested_in_one_way()
    ensures { (answers : List (List ℕ)) (own nested c d : Doc) → IsOpenApi own → IsNested answers own nested c
        → IsNested answers own nested d
        → IsInKeyOrder c → IsInKeyOrder d → c ≡ d }
{}

/// A document can be nested into another if each nested path has an answer: there is such a document with its maps in the order of their
/// keys. There is no other ([`nested_in_one_way`]).
pub fn nested_in_some_way()
    ensures { (answers : List (List ℕ)) (own nested : Doc) → length answers ≡ length (entries_in (paths_of nested))
        → IsOpenApi own → IsOpenApi nested
        → (d : Doc) × IsNested answers own nested d × IsInKeyOrder d }
{}

/// After nesting an answered path has the whole item of the last nested path with this answer, and every other path its own.
/// The nested Paths extensions are dropped.
pub fn nested_paths()
    ensures items { (answers : List (List ℕ)) (own nested d : Doc) → IsOpenApi own → IsOpenApi nested
        → IsNested answers own nested d
        → (path : List ℕ) (s : ItemSlot)
        → path_slot path s (paths_of d) ≡ option_and_then (item_slot s) (mounted_at answers nested own path) }
    ensures extensions { (answers : List (List ℕ)) (own nested d : Doc) → IsOpenApi own → IsOpenApi nested
        → IsNested answers own nested d
        → (has_extensions (paths_of d) ≡ has_extensions (paths_of own))
        × ((name : List ℕ) → extension_at name (paths_of d) ≡ extension_at name (paths_of own)) }
{}

/// What plain documents are merged into is plain, where its maps stand in the order of their keys.
pub fn merged_stays_plain()
    ensures { (documents : List Doc) (d : Doc) → IsMerged documents d → All IsPlain documents → IsInKeyOrder d
        → IsPlain d }
{}

/// What a plain document is with a plain one nested into it is plain, where its maps stand in the order of their keys.
pub fn nested_stays_plain()
    ensures { (answers : List (List ℕ)) (own nested d : Doc) → IsOpenApi own → IsOpenApi nested
        → IsNested answers own nested d
        → IsPlain own → IsPlain nested → IsInKeyOrder d → IsPlain d }
{}

/// What well-formed documents are merged into is well-formed, where its maps stand in the order of their keys. So it is of what is
/// unambiguous, whether plain or not.
pub fn merged_stays_well_formed()
    ensures well_formed { (documents : List Doc) (d : Doc) → IsMerged documents d → All IsOpenApi documents
        → All IsWellFormed documents
        → IsInKeyOrder d → IsWellFormed d }
    ensures unambiguous { (documents : List Doc) (d : Doc) → IsMerged documents d → All IsOpenApi documents
        → All IsUnambiguous documents
        → IsInKeyOrder d → IsUnambiguous d }
{}

/// What a well-formed document is with a well-formed one nested into it is well-formed exactly where no answer begins `x-`, as the name
/// of an extension does. So it is of what is unambiguous, whether plain or not.
pub fn nested_stays_well_formed()
    ensures well_formed { (answers : List (List ℕ)) (own nested d : Doc) → IsOpenApi own → IsOpenApi nested
        → IsNested answers own nested d
        → IsWellFormed own → IsWellFormed nested → IsInKeyOrder d
        → IsWellFormed d ↔ All (λ a. is_extension a ≡ false) answers }
    ensures unambiguous { (answers : List (List ℕ)) (own nested d : Doc) → IsOpenApi own → IsOpenApi nested
        → IsNested answers own nested d
        → IsUnambiguous own → IsUnambiguous nested → IsInKeyOrder d
        → IsUnambiguous d ↔ All (λ a. is_extension a ≡ false) answers }
{}

/// What documents in normal form are merged into is in normal form, where its maps stand in the order of their keys.
pub fn merged_stays_normal()
    ensures { (documents : List Doc) (d : Doc) → IsMerged documents d → All (λ e. normal_form e ≡ e) documents
        → IsInKeyOrder d → normal_form d ≡ d }
{}

/// What a document in normal form is with such a one nested into it is in normal form, where its maps stand in the order of their keys.
pub fn nested_stays_normal()
    ensures { (answers : List (List ℕ)) (own nested d : Doc) → IsOpenApi own → IsOpenApi nested
        → IsNested answers own nested d
        → normal_form own ≡ own → normal_form nested ≡ nested → IsInKeyOrder d → normal_form d ≡ d }
{}

/// What unambiguous documents are merged into is written no deeper than they are, of five levels and more, and so is what an unambiguous document
/// is with one nested into it, where no answer begins `x-`.
pub fn merged_no_deeper()
    ensures merged { (n : ℕ) → 5 ≤ n → (documents : List Doc) (d : Doc) → IsMerged documents d
        → All IsOpenApi documents → All IsUnambiguous documents
        → All (λ e. depth (write e) ≤ n) documents → IsInKeyOrder d → depth (write d) ≤ n }
    ensures nested { (n : ℕ) → 5 ≤ n → (answers : List (List ℕ)) (own nested d : Doc) → IsOpenApi own
        → IsOpenApi nested
        → IsNested answers own nested d → IsUnambiguous own → IsUnambiguous nested
        → All (λ a. is_extension a ≡ false) answers
        → depth (write own) ≤ n → depth (write nested) ≤ n → IsInKeyOrder d → depth (write d) ≤ n }
{}

/// The tree of a text has the members of each object in the order of their names, each name once.
pub fn texts_are_sorted()
    ensures { (text : List ℕ) (tree : Data) → read_text text ≡ Some tree → IsSorted tree }
{}

/// A document that is read from such a tree has its maps in the order of their keys.
pub fn what_is_read_is_in_key_order()
    ensures { (tree : Data) (d : Doc) → IsSorted tree → read (named open_api_object) tree ≡ Some d → IsInKeyOrder d }
{}

/// What is read of a tree as a kind is of the kind, and is written no deeper than the tree.
pub fn what_is_read_fits()
    ensures of_kind { (k : Kind) (tree : Data) (d : Doc) → read k tree ≡ Some d → IsOf d (value_of k) }
    ensures depth { (k : Kind) (tree : Data) (d : Doc) → read k tree ≡ Some d → depth (write d) ≤ depth tree }
{}

/// The documents of texts are merged in one way at most.
pub fn texts_merged_in_one_way()
    ensures { (texts : List (List ℕ)) (c d : Doc) → AreTextsMerged texts c → AreTextsMerged texts d → c ≡ d }
{}

/// Merging any texts of what two lists of texts are merged to merges the texts of both.
pub fn merging_texts_composes()
    ensures { (xs ys : List (List ℕ)) (a b d : Doc) (s t : List ℕ) → AreTextsMerged xs a → AreTextsMerged ys b
        → IsTextOf a s → IsTextOf b t → AreTextsMerged (s ∷ t ∷ []) d → AreTextsMerged (xs ++ ys) d }
{}

/// A well-formed document is read, as its normal form, of each text that has the tree that it is written as.
pub fn written_text_reads_back()
    ensures { (d : Doc) (text : List ℕ) → IsOpenApi d → IsWellFormed d → IsWrittenAs d text
        → IsTextOf (normal_form d) text }
{}

/// Of what the documents of texts are merged into each text that has the tree that it is written as is a text of it, where they are
/// unambiguous; and it is written no deeper than a text may nest.
pub fn text_of_what_is_merged()
    ensures reads { (texts : List (List ℕ)) (d : Doc) (text : List ℕ) → AreTextsMerged texts d
        → All IsUnambiguousText texts
        → IsWrittenAs d text → IsTextOf d text }
    ensures depth { (texts : List (List ℕ)) (d : Doc) → AreTextsMerged texts d → All IsUnambiguousText texts
        → depth (write d) ≤ max_depth }
{}

/// Merging texts pair by pair, in any brackets, where what each pair is merged into is written as any text of it and read again, merges the
/// texts from left to right at once. So in any two brackets the same texts are merged to one document. Of texts of unambiguous documents
/// what is written need only have the tree of what it is written for.
pub fn texts_in_any_brackets()
    ensures at_once { (b : TextBrackets) (d : Doc) → AreTextsMergedByPairs IsTextOf b d
        → AreTextsMerged (text_leaves b) d }
    ensures agree { (b c : TextBrackets) (d e : Doc) → text_leaves b ≡ text_leaves c
        → AreTextsMergedByPairs IsTextOf b d
        → AreTextsMergedByPairs IsTextOf c e → d ≡ e }
    ensures written { (b : TextBrackets) (d : Doc) → All IsUnambiguousText (text_leaves b)
        → AreTextsMergedByPairs IsWrittenAs b d
        → AreTextsMerged (text_leaves b) d }
{}

/// Some documents are merged: of equal servers the second document's two stay and the third's goes, and of the examples of
/// one name the second's.
pub fn three_documents()
    ensures { IsMerged (first_api ∷ second_api ∷ third_api ∷ []) merged_api }
{}
