//! The laws of adapting and of upgrading, of every kind and every tree.
ghost use Rattle.std.specs.Prelude.{◌≡◌, [], map};
ghost use Rattle.serde_json.specs.View.{view};
ghost use Rattle.utoipa_adapt.specs.Adapted.{adapted, adaptations, at_work, told_of_tree};
ghost use Rattle.utoipa_adapt.specs.Adapted.{upgraded, upgrades, upgrades_at_work, upgrades_of_tree};
ghost use Rattle.utoipa_adapt.specs.Adapted.{at_tree};
ghost use Rattle.utoipa_base.specs.Kinds.{Kind};

use serde_json::Value;

/// A tree without adaptations is its own adapted tree, an adapted tree has no adaptations, and adapting twice is adapting once. What is told of a tree
/// itself are the rules that change it, each after those before it, once what stands in it is adapted.
pub fn adapting_is_told(tree: &Value)
    ensures same { (k : Kind) → adaptations k (view tree.now) ≡ [] → adapted k (view tree.now) ≡ view tree.now }
    ensures settled { (k : Kind) → adaptations k (adapted k (view tree.now)) ≡ [] }
    ensures once { (k : Kind) → adapted k (adapted k (view tree.now)) ≡ adapted k (view tree.now) }
    ensures told { (k : Kind) → told_of_tree k (view tree.now) ≡ map at_tree (at_work k (view tree.now)) }
{
    let _tree = tree;
}

/// The same of upgrading: a tree without upgrades is its own upgraded tree, an upgraded tree has no upgrades, and upgrading twice is upgrading once.
/// What is told of a tree itself are the rules that change it, each after those before it, once what stands in it is upgraded.
pub fn upgrading_is_told(tree: &Value)
    ensures same { (k : Kind) → upgrades k (view tree.now) ≡ [] → upgraded k (view tree.now) ≡ view tree.now }
    ensures settled { (k : Kind) → upgrades k (upgraded k (view tree.now)) ≡ [] }
    ensures once { (k : Kind) → upgraded k (upgraded k (view tree.now)) ≡ upgraded k (view tree.now) }
    ensures told { (k : Kind) → upgrades_of_tree k (view tree.now) ≡ map at_tree (upgrades_at_work k (view tree.now)) }
{
    let _tree = tree;
}
