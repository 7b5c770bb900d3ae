//! Which document decides the slots of each holder.
ghost use Rattle.std.specs.Prelude.{◌≡◌, All, IfOk, OnOk, if◌then◌else◌, option_map};
ghost use Rattle.utoipa_conflicts.specs.Conflicts as specs;
ghost use Rattle.utoipa_conflicts.specs.Deciders.{noted, numbered_of, is_last, with_one, trees_of};
ghost use Rattle.utoipa_conflicts.specs.Holders as lists;
ghost use Rattle.utoipa_conflicts.specs.Views.{holder_of, all_holders};

use crate::holder::{Holder, holders};
use serde_json::Value;
use std::alloc::{AllocError, Global};
use std::collections::BTreeMap;
use utoipa_base::is_extension_name;

/// A document, with its number among those that are merged.
#[derive(Clone, Copy, Drop)]
pub(crate) struct Document<'a> {
    pub(crate) number: usize,
    pub(crate) tree: &'a Value,
}

/// The document that decides the slots of each holder.
pub(crate) type Deciders<'a> = BTreeMap<Holder<'a>, Document<'a>>;

/// Whether it is the last document that decides, as at an extension of `paths`, and not the first.
fn last_decides(holder: Holder<'_>) -> bool
    ensures { result ≡ is_last (specs.rule (holder_of holder.entry)) }
{
    match holder {
        Holder::PathEntry(path) => is_extension_name(path),
        _ => false,
    }
}

/// Notes that a document has a holder. Fails where memory runs out.
fn note<'a>(
    deciders: &mut BTreeMap<Holder<'a>, Document<'a>>,
    holder: Holder<'a>,
    document: Document<'a>,
) -> Result<(), AllocError>
    ensures { OnOk result ((h : specs.Holder) → noted deciders.new h
        ≡ (if lists.same_holder h (holder_of holder.entry)
        then with_one (specs.rule h) (numbered_of document.entry) (noted deciders.old h)
        else noted deciders.old h)) }
{
    if last_decides(holder) || !deciders.contains_key(&holder) {
        drop(deciders.insert(holder, document)?);
    }
    Ok(())
}

/// Notes that a document has some holders. Fails where memory runs out.
fn note_all<'a>(
    deciders: &mut BTreeMap<Holder<'a>, Document<'a>>,
    holders: &Vec<Holder<'a>>,
    document: Document<'a>,
) -> Result<(), AllocError>
    ensures { OnOk result ((h : specs.Holder) → noted deciders.new h
        ≡ (if lists.is_among h (all_holders holders.now.items)
        then with_one (specs.rule h) (numbered_of document.entry) (noted deciders.old h)
        else noted deciders.old h)) }
{
    for holder in holders {
        note(deciders, *holder, document)?;
    }
    Ok(())
}

/// The document that decides the slots of each holder. Fails where memory runs out.
pub(crate) fn deciders<'a>(
    alloc: Global,
    trees: &'a [Value],
) -> Result<BTreeMap<Holder<'a>, Document<'a>>, AllocError>
    ensures decided { IfOk result (λ m. (h : specs.Holder) → noted m h
        ≡ specs.deciding h (specs.numbered 0 (trees_of trees.now))) }
    ensures apart { IfOk result (λ _. All lists.IsApartWithin (trees_of trees.now)) }
{
    let mut deciders = BTreeMap::new(alloc);
    for (number, tree) in trees.iter().enumerate() {
        let holders = holders(alloc, tree)?;
        note_all(&mut deciders, &holders, Document { number, tree })?;
    }
    Ok(deciders)
}

/// The document that decides the slots of a holder, if any has it.
pub(crate) fn decider_of<'a>(
    deciders: &BTreeMap<Holder<'a>, Document<'a>>,
    holder: Holder<'a>,
) -> Option<Document<'a>>
    ensures { option_map numbered_of result ≡ noted deciders.now (holder_of holder.entry) }
{
    deciders.get(&holder).copied()
}
