//! The laws of misfits, of doubts and of references, of every kind and every tree, and of what is shown.
ghost use Rattle.std.specs.Prelude.{◌≡◌, ◌≢◌, ◌&&◌, ℕ, List, [], not, is_some, Some};
ghost use Rattle.std.specs.List.{AllByRecursion};
ghost use Rattle.std.specs.Str.{IsUtf8};
ghost use Rattle.serde_json.specs.View.{view};
ghost use Rattle.serde_json.specs.Written.{has_float};
ghost use Rattle.utoipa_base.specs.Docs.{Doc};
ghost use Rattle.utoipa_base.specs.Kinds.{Kind};
ghost use Rattle.utoipa_base.specs.Reading.{read};
ghost use Rattle.utoipa_base.specs.References.{component, component_map_text, component_of, field_of_components, IsNoList};
ghost use Rattle.utoipa_base.specs.WellFormed.{IsUnambiguous, IsWellFormed, ReadsAs};
ghost use Rattle.utoipa_base.specs.Writing.{write};
ghost use Rattle.utoipa_base.specs.declared.refs.component.ComponentMap.{ComponentMap};
ghost use Rattle.utoipa_check.specs.Doubts.{doubts};
ghost use Rattle.utoipa_check.specs.Dropped.{Dropped};
ghost use Rattle.utoipa_check.specs.Misfits.{Step, Misfit, misfits, misfits_and_fractions, is_fit};
ghost use Rattle.utoipa_check.specs.Pointers.{shown_pointer};
ghost use Rattle.utoipa_check.specs.References.{Reference, references};
ghost use Rattle.utoipa_check.specs.Referring.{by_requirement, leads, LeadsToComponent, reference_state, resolved};
ghost use Rattle.utoipa_check.specs.Said.{misfit_text, reference_text, dropped_text};
ghost use Rattle.utoipa_check.specs.Shown.{shown, meant, IsOneLine};
ghost use Rattle.utoipa_check.specs.Truth.{AllTrue};
ghost use Rattle.utoipa_check.specs.Within.{IsWithin};

use serde_json::Value;

/// A tree has no misfit exactly where it reads as a document, and each misfit is true of it.
pub fn misfits_are_exact(tree: &Value)
    ensures exact { (k : Kind) → is_fit (misfits k (view tree.now)) ≡ is_some (read k (view tree.now)) }
    ensures sound { (k : Kind) → AllTrue k (view tree.now) (misfits k (view tree.now)) }
    ensures exact_with_fractions { (k : Kind) → is_fit (misfits_and_fractions k (view tree.now))
        ≡ is_some (read k (view tree.now)) && not (has_float (view tree.now)) }
    ensures sound_with_fractions { (k : Kind) → AllTrue k (view tree.now) (misfits_and_fractions k (view tree.now)) }
{
    let _tree = tree;
}

/// A document in which nothing is in doubt is unambiguous, and of a plain tree it is well-formed: it reads back from its own tree.
pub fn without_doubts_well_formed(tree: &Value)
    ensures well_formed { (k : Kind) → (d : Doc) → doubts k (view tree.now) ≡ [] → ReadsAs k (view tree.now) d → IsWellFormed d }
    ensures with_fractions { (k : Kind) → (d : Doc) → doubts k (view tree.now) ≡ [] → read k (view tree.now) ≡ Some d
        → IsUnambiguous d }
{
    let _tree = tree;
}

/// A document that was read of a tree is written with no place besides those of the tree, but for a null under `description` where the object of
/// the tree has none. External docs are written with one.
pub fn nothing_is_written_besides(tree: &Value)
    ensures { (k : Kind) → (d : Doc) → read k (view tree.now) ≡ Some d → IsWithin (write d) (view tree.now) }
{
    let _tree = tree;
}

/// A reference to a component that the tree has is resolved: `references` and `Ref::component` agree where a reference leads.
///
/// A reference to one that the tree lacks leads to nothing. Only a list in place of the map of components may hold something there.
pub fn component_is_resolved(text: &str, tree: &Value)
    ensures resolved { LeadsToComponent text.now (view tree.now) → reference_state text.now (view tree.now) ≡ resolved }
    ensures exact { (map : ComponentMap) → (name : List ℕ) → component_of text.now ≡ Some (map, name)
        → IsNoList (field_of_components (component_map_text map) (view tree.now))
        → reference_state text.now (view tree.now)
        ≡ leads (component (component_map_text map) name (view tree.now)) }
    // A security requirement is a name, and no reference.
    ensures listed { (k : Kind)
        → AllByRecursion (λ r. r.0.1.0 ≢ by_requirement → LeadsToComponent r.0.1.1 (view tree.now) → r.1 ≡ resolved)
        (references k (view tree.now)) }
{
    let _text = text;
    let _tree = tree;
}

/// A text that is shown is on one line, and the text can be had back from it. So each pointer that is shown is on one line, and what is displayed
/// of a misfit, of a reference and of what is dropped.
pub fn shown_is_one_line()
    ensures one_line { (text : List ℕ) → IsOneLine (shown text) }
    ensures back { (text : List ℕ) → IsUtf8 text → meant (shown text) ≡ text }
    ensures pointer { (steps : List Step) → IsOneLine (shown_pointer steps) }
    ensures misfit { (m : Misfit) → IsOneLine (misfit_text m) }
    ensures reference { (r : Reference) → IsOneLine (reference_text r) }
    ensures dropped { (d : Dropped) → IsOneLine (dropped_text d) }
{}
