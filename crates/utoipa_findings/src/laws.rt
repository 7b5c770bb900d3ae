//! The laws of what is found: of documents in which nothing is, of every kind, tree and type, and of the lines that are told.
ghost use Rattle.std.specs.Prelude.{◌≡◌, ℕ, List, [], Option, Some, length};
ghost use Rattle.std.specs.List.{flat_map};
ghost use Rattle.serde_json.specs.Data.{Data};
ghost use Rattle.serde_json.specs.View.{view};
ghost use Rattle.utoipa_base.specs.Docs.{Doc};
ghost use Rattle.utoipa_base.specs.Kinds.{Kind};
ghost use Rattle.utoipa_base.specs.Reading.{read};
ghost use Rattle.utoipa_base.specs.WellFormed.{ReadsAs};
ghost use Rattle.utoipa_base.specs.Writing.{write};
ghost use Rattle.utoipa_check.specs.Shown.{AreLines};
ghost use Rattle.utoipa_conflicts.specs.Conflicts.{Conflict};
ghost use Rattle.utoipa_merging.specs.Sorted.{IsSorted};
ghost use Rattle.utoipa_findings.specs.ComesBack.{ComesBack};
ghost use Rattle.utoipa_findings.specs.Findings.{Finding, findings, text_findings, text_losses};
ghost use Rattle.utoipa_findings.specs.InText.{HasText};
ghost use Rattle.utoipa_findings.specs.Lines.{conflict_line, nested_line};
ghost use Rattle.utoipa_findings.specs.Sources.{File, IsTreelessLine, seen, tree_of};
ghost use Rattle.utoipa_findings.specs.Standing.{AllStandIn, AreMergedWhole, AreNestedWhole, BothStand};
ghost use Rattle.utoipa_findings.specs.Told.{IsTold, lines_due};

use serde_json::Value;
use utoipa_base::Tree;

/// A document in which `check` finds nothing comes back.
///
/// Of a tree in which nothing is found, of whatever kind, this holds: the tree has no fraction, and reads as a document, which is well-formed.
/// Each value of the tree stands at its place in the tree that the document is written as. That one has no other place, but for a null under
/// `description` where the tree has no such member, with which external docs are written. So it is the tree itself, but for such nulls and for
/// the order of members.
///
/// A file in which nothing is found has each name once in an object, so each value of its text stands at its place in its tree. What comes back is
/// that tree as it is looked at: as it is, or adapted, with its meaning.
///
/// A value that was read of the tree is that document. What the value is written as reads as the value again, in every member.
///
/// The first and the third hold of a document that loses nothing, too, whatever else is found in it.
///
/// The tree of a file, as it is looked at, and what its document is written as have the members of each object in the order of their names; so each name stands once.
pub fn nothing_found_comes_back<T: Tree>(tree: &Value, value: &T)
    ensures document { (k : Kind) → findings k (view tree.now) ≡ [] → (d : Doc) × ComesBack k (view tree.now) d }
    ensures text { (k : Kind) (x : File) (t : Data) → tree_of x.1 ≡ Some t → text_findings k x.1 (seen x.2 k t) ≡ []
        → (d : Doc) × ComesBack k (seen x.2 k t) d × HasText t x.1 }
    ensures unlost { (k : Kind) (x : File) (t : Data) (d : Doc) → tree_of x.1 ≡ Some t → ReadsAs k (seen x.2 k t) d
        → text_losses k x.1 (seen x.2 k t) ≡ [] → ComesBack k (seen x.2 k t) d × HasText t x.1 }
    ensures ordered { (k : Kind) (x : File) (t : Data) (d : Doc) → tree_of x.1 ≡ Some t → read k (seen x.2 k t) ≡ Some d
        → IsSorted (seen x.2 k t) × IsSorted (write d) }
    ensures value { findings T.kind (view tree.now) ≡ [] → read T.kind (view tree.now) ≡ Some (T.doc value.now)
        → ComesBack T.kind (view tree.now) (T.doc value.now) }
    ensures again { findings T.kind (view tree.now) ≡ [] → read T.kind (view tree.now) ≡ Some (T.doc value.now)
        → ReadsAs T.kind (write (T.doc value.now)) (T.doc value.now) }
{}

/// Where nothing is lost of the files and merging their documents drops nothing, each value of each file's text stands in its tree, and each
/// value of its tree, as it is looked at, stands in the tree that the merged document is written as, at its place; of a list that merging joins,
/// each item is one of the items there.
pub fn merged_files_stand_whole()
    ensures { (files : List File) (trees : List Data) (documents : List Doc) (d : Doc)
        → AreMergedWhole files trees documents d → AllStandIn (write d) files trees }
{}

/// The same of a file that is nested into another: where nothing is lost of both and nesting drops nothing, each value of the one that is nested
/// into stands at its place in the tree that what comes of it is written as, and each value of the nested one too, but what is at a path behind
/// the base.
pub fn nested_files_stand_whole()
    ensures { (base : List ℕ) (own_file other_file : File) (own_tree other_tree : Data) (own other d : Doc)
        → AreNestedWhole base own_file other_file own_tree other_tree own other d
        → BothStand base (write d) own_file other_file own_tree other_tree }
{}

/// What is told is lines, whatever a document, a text or a file's name has: one for each finding, or one that the file has no tree; and one for each
/// value that merging or nesting drops. Each is ended by a line feed, and nothing else is hidden in it.
pub fn told_is_lines()
    ensures findings { (f : Data → List Finding) (x : File) (tree : Option Data) (told : List ℕ)
        → IsTold f x tree told → AreLines (lines_due f tree) told }
    ensures treeless { (name bytes told : List ℕ) → IsTreelessLine name bytes told → AreLines 1 told }
    ensures conflicts { (names : List (List ℕ)) (cs : List Conflict) → AreLines (length cs) (flat_map (conflict_line names) cs) }
    ensures nested { (names : List (List ℕ)) (cs : List Conflict) → AreLines (length cs) (flat_map (nested_line names) cs) }
{}
