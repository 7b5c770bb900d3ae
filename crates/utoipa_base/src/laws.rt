//! What holds of every type that is read and written, as contracts of functions that do nothing.
//!
//! A caller with a value or a tree at hand learns the law by the call. Each law holds of a user's own types too.
ghost use Rattle.std.specs.Prelude.{◌≡◌, ◌<◌, ◌↔◌, ℕ, List, Some, IsTrue, true, false};
ghost use Rattle.serde_json.specs.View.{view};
ghost use Rattle.serde_json.specs.Written.{has_float};
ghost use Rattle.utoipa_base.specs.Docs.{Doc};
ghost use Rattle.utoipa_base.specs.Reading.{read};
ghost use Rattle.utoipa_base.specs.NormalForm.{normal_form};
ghost use Rattle.utoipa_base.specs.References.{component, component_map_text, component_of, target_of, at_target, field_of_components, IsNoList};
ghost use Rattle.utoipa_base.specs.Shape.{IsOf, value_of};
ghost use Rattle.utoipa_base.specs.Unambiguous.{is_unambiguous};
ghost use Rattle.utoipa_base.specs.WellFormed.{IsPlain, IsWellFormed, IsUnambiguous, ReadsAs, has_fraction};
ghost use Rattle.utoipa_base.specs.Values.{values, names_values, are_distinct};
ghost use Rattle.utoipa_base.specs.Writing.{write};
ghost use Rattle.utoipa_base.specs.declared.refs.component.ComponentMap.{ComponentMap};

use crate::tree::Tree;
use crate::unambiguous::Unambiguous;
use serde_json::Value;

/// A well-formed value reads back from its own tree as its normal form. It need not be plain for its tree to read so.
pub fn reads_back<T: Tree>(value: &T)
    ensures well_formed { IsWellFormed (T.doc value.now)
        → ReadsAs T.kind (write (T.doc value.now)) (normal_form (T.doc value.now)) }
    ensures with_fractions { IsUnambiguous (T.doc value.now)
        → read T.kind (write (T.doc value.now)) ≡ Some (normal_form (T.doc value.now)) }
{}

/// The test of [`Unambiguous::is_unambiguous`] holds exactly of the values that are unambiguous, and of those without a fraction exactly of
/// the well-formed ones.
pub fn unambiguous_exactly<T: Unambiguous>(value: &T)
    ensures unambiguous { IsTrue (is_unambiguous (T.doc value.now)) ↔ IsUnambiguous (T.doc value.now) }
    ensures well_formed { has_fraction (T.doc value.now) ≡ false
        → IsTrue (is_unambiguous (T.doc value.now)) ↔ IsWellFormed (T.doc value.now) }
{}

/// A value of which [`Unambiguous::is_unambiguous`] answers true reads back, from the tree that it is written as, as its normal form.
pub fn comes_back<T: Unambiguous>(value: &T)
    ensures { is_unambiguous (T.doc value.now) ≡ true
        → read T.kind (write (T.doc value.now)) ≡ Some (normal_form (T.doc value.now)) }
{}

/// What is read from a tree is in normal form.
pub fn what_is_read<T: Tree>(tree: &Value)
    ensures { (d : Doc) → read T.kind (view tree.now) ≡ Some d → normal_form d ≡ d }
{}

/// The normal form of a normal form is itself.
pub fn normal_form_twice<T: Tree>(value: &T)
    ensures { normal_form (normal_form (T.doc value.now)) ≡ normal_form (T.doc value.now) }
{}

/// Two well-formed values that are written as one tree have one normal form.
pub fn one_normal_form<T: Tree>(left: &T, right: &T)
    ensures { IsUnambiguous (T.doc left.now) → IsUnambiguous (T.doc right.now)
        → write (T.doc left.now) ≡ write (T.doc right.now)
        → normal_form (T.doc left.now) ≡ normal_form (T.doc right.now) }
{}

/// What is read from a plain tree is plain, and is written as a plain tree.
pub fn stays_plain<T: Tree>(tree: &Value)
    ensures { (d : Doc) → has_float (view tree.now) ≡ false → read T.kind (view tree.now) ≡ Some d
        → IsPlain d × (has_float (write d) ≡ false) }
{}

/// The members of an object under distinct names have together fewer values than the object.
pub fn members_have_fewer_values(tree: &Value)
    ensures { (names : List (List ℕ)) → are_distinct names ≡ true
        → names_values names (view tree.now) < values (view tree.now) }
{}

/// Where a reference leads to a component, its JSON Pointer finds in any tree the entry of that name in that map of the components. A tree
/// with a list in place of that map is no document, and the pointer may find an item of the list.
pub fn component_stands_there(location: &str, tree: &Value)
    ensures { (map : ComponentMap) → (name : List ℕ) → component_of location.now ≡ Some (map, name)
        → IsNoList (field_of_components (component_map_text map) (view tree.now))
        → at_target (target_of location.now) (view tree.now)
        ≡ component (component_map_text map) name (view tree.now) }
{}
