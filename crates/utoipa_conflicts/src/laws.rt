//! The laws of conflicts, of all trees.
ghost use Rattle.std.specs.Prelude.{◌≡◌, ◌↔◌, ◌∷◌, [], ℕ, List, All, true, false, length, IsTrue};
ghost use Rattle.serde_json.specs.Data.{Data};
ghost use Rattle.serde_json.specs.Written.{has_float};
ghost use Rattle.std.specs.Option.{option_or};
ghost use Rattle.utoipa_base.specs.Docs.{Doc};
ghost use Rattle.utoipa_base.specs.Extensions.{is_extension};
ghost use Rattle.utoipa_base.specs.Writing.{write};
ghost use Rattle.utoipa_check.specs.Shown.{IsOneLine, AreLines};
ghost use Rattle.utoipa_conflicts.specs.Conflicts.{Conflict, Slot, place, place_of_item, conflicts};
ghost use Rattle.utoipa_conflicts.specs.Examples.{two_services, two_services_drop, three_paths, three_paths_drop, three_components, three_components_drop};
ghost use Rattle.utoipa_conflicts.specs.Holders.{IsNamedOnce};
ghost use Rattle.utoipa_conflicts.specs.IsConflict.{IsOneOf, IsConflict, AllKept};
ghost use Rattle.utoipa_conflicts.specs.Kept.{IsAllKept, kept, behind_holder};
ghost use Rattle.utoipa_conflicts.specs.Merged.{AreMergedInto, IsAllThere, IsLost, Told, is_slot, written};
ghost use Rattle.utoipa_conflicts.specs.Nested.{answered, nested_conflicts, path_items, put_at};
ghost use Rattle.utoipa_conflicts.specs.NestedInto.{AreNestedInto, IsLostByNesting};
ghost use Rattle.utoipa_conflicts.specs.Same.{is_same};
ghost use Rattle.utoipa_conflicts.specs.Texts.{conflict_text, told_text, told_lines};
ghost use Rattle.utoipa_conflicts.specs.Trees.{Place, at_place};
ghost use Rattle.utoipa_conflicts.specs.Undoubted.{AreReadAndMerged, AreReadAndNested};

/// A value is listed exactly where it is dropped, and the list is empty exactly where each value is kept.
pub fn conflicts_are_exact()
    ensures listed { (ds : List Data) (p : Place) (i j : ℕ) → IsOneOf (p, i, j) (conflicts ds) ↔ IsConflict ds p i j }
    ensures nothing { (ds : List Data) → (conflicts ds ≡ []) ↔ AllKept ds }
{}

/// Of one document nothing is dropped, and of none.
pub fn one_document_has_no_conflicts()
    ensures one { (d : Data) → conflicts (d ∷ []) ≡ [] }
    ensures none { conflicts [] ≡ [] }
{}

/// Three worked examples.
pub fn worked_examples()
    ensures services { conflicts two_services ≡ two_services_drop }
    ensures paths { conflicts three_paths ≡ three_paths_drop }
    ensures components { conflicts three_components ≡ three_components_drop }
{}

/// Each tree is one value with itself, and where a tree has no fraction, it is one value with its equals alone. Fractions are compared by
/// the bits of their `f64`.
pub fn one_value_is_one_tree()
    ensures itself { (d : Data) → is_same d d ≡ true }
    ensures whole { (d e : Data) → has_float d ≡ false → IsTrue (is_same d e) ↔ (d ≡ e) }
{}

/// What is kept in a slot is what stands behind the slot's holder in the first document that has the holder, or, of an extension of `paths`,
/// in the last. This is the form in which merging says where a slot comes from.
pub fn kept_is_behind_the_holder()
    ensures { (s : Slot) (ds : List Data) → kept s ds ≡ behind_holder s ds }
{}

/// Of trees in which each name of an object stands once, as in each `Value`, nothing is dropped exactly where each value that a document has
/// in a slot is the one that is kept there.
pub fn nothing_where_each_is_kept()
    ensures { (ds : List Data) → All IsNamedOnce ds → (conflicts ds ≡ []) ↔ IsAllKept ds }
{}

/// What stands in a slot of the document that documents are merged into, is what is kept there.
pub fn merged_has_what_is_kept()
    ensures { (documents : List Doc) (d : Doc) → AreMergedInto documents d → (s : Slot) → is_slot s ≡ true
        → at_place (place s) (write d) ≡ kept s (written documents) }
{}

/// A merge without conflicts keeps everything: there is none exactly where each value that a document has in a slot stands there in the
/// document that they are merged into.
pub fn without_conflicts_all_is_there()
    ensures { (documents : List Doc) (d : Doc) → AreMergedInto documents d → All IsNamedOnce (written documents)
        → (conflicts (written documents) ≡ []) ↔ IsAllThere documents d }
{}

/// Each conflict tells truly, and none is passed over: a value of a document is told exactly where the document that all are merged into has
/// nothing in its slot, or another value.
pub fn conflicts_are_what_is_lost()
    ensures { (documents : List Doc) (d : Doc) → AreMergedInto documents d → All IsNamedOnce (written documents)
        → (p : Place) (j : ℕ) → ((i : ℕ) × IsOneOf (p, i, j) (conflicts (written documents))) ↔ IsLost documents d p j }
{}

/// At each path of what comes of nesting stands the item that is put there, the last of those that were answered alike, or else the item of
/// the document that is nested into.
pub fn nested_items_stand_whole()
    ensures { (answers : List (List ℕ)) (own other d : Doc) → AreNestedInto answers own other d → (path : List ℕ)
        → is_extension path ≡ false
        → at_place (place_of_item path) (write d)
        ≡ option_or (put_at (answered answers (path_items (write other))) path) (at_place (place_of_item path) (write own)) }
{}

/// What is told of nesting is what is lost by it: a value is told exactly where it stood in the document that is nested into, or was to be put
/// from the nested one, and what comes of nesting has nothing there, or another value.
pub fn nested_conflicts_are_what_is_lost()
    ensures { (answers : List (List ℕ)) (own other d : Doc) → AreNestedInto answers own other d
        → IsNamedOnce (write own) → IsNamedOnce (write other)
        → (p : Place) (j : ℕ) → ((i : ℕ) × IsOneOf (p, i, j) (nested_conflicts answers (write own) (write other)))
        ↔ IsLostByNesting answers own other d p j }
{}

/// What a conflict is displayed as is on one line, and the lines of some are as many as those.
pub fn conflicts_are_lines()
    ensures conflict { (c : Conflict) → IsOneLine (conflict_text c) }
    ensures told { (c : Told) → IsOneLine (told_text c) }
    ensures lines { (cs : List Told) → AreLines (length cs) (told_lines cs) }
{}

/// Of documents that were read of trees in which nothing is in doubt, the conflicts are exactly what the document lacks that they are merged
/// into, and there is none exactly where nothing is lost. What is in doubt is what `doubts` of the crate `utoipa_check` lists: so no document
/// has to be known as unambiguous. What stands in a slot of the document that they are merged into is what is kept there.
pub fn conflicts_of_undoubted_trees()
    ensures kept { (trees : List Data) (documents : List Doc) (d : Doc) → AreReadAndMerged trees documents d
        → (s : Slot) → is_slot s ≡ true → at_place (place s) (write d) ≡ kept s (written documents) }
    ensures lost { (trees : List Data) (documents : List Doc) (d : Doc) → AreReadAndMerged trees documents d
        → All IsNamedOnce (written documents)
        → (p : Place) (j : ℕ) → ((i : ℕ) × IsOneOf (p, i, j) (conflicts (written documents))) ↔ IsLost documents d p j }
    ensures nothing { (trees : List Data) (documents : List Doc) (d : Doc) → AreReadAndMerged trees documents d
        → All IsNamedOnce (written documents) → (conflicts (written documents) ≡ []) ↔ IsAllThere documents d }
{}

/// Of two documents that were read of trees in which nothing is in doubt, what is told of nesting one into the other is what is lost by it.
/// At each path of what comes of it stands the item that is put there, or else that of the document that is nested into.
pub fn nested_conflicts_of_undoubted_trees()
    ensures items { (answers : List (List ℕ)) (own_tree other_tree : Data) (own other d : Doc)
        → AreReadAndNested answers own_tree other_tree own other d → (path : List ℕ) → is_extension path ≡ false
        → at_place (place_of_item path) (write d)
        ≡ option_or (put_at (answered answers (path_items (write other))) path) (at_place (place_of_item path) (write own)) }
    ensures lost { (answers : List (List ℕ)) (own_tree other_tree : Data) (own other d : Doc)
        → AreReadAndNested answers own_tree other_tree own other d → IsNamedOnce (write own) → IsNamedOnce (write other)
        → (p : Place) (j : ℕ) → ((i : ℕ) × IsOneOf (p, i, j) (nested_conflicts answers (write own) (write other)))
        ↔ IsLostByNesting answers own other d p j }
{}
