//! Merging any number of documents: pair by pair as brackets say, or all at once.
ghost use Rattle.std.specs.Prelude.{◌≡◌, ◌∷◌, ◌++◌, ◌↔◌, [], List, None, Some, true, false, map, Ok, IfOk, IsErrOf, IfSome, OnOk};
ghost use Rattle.std.specs.List.{list_any};
ghost use Rattle.std.specs.Vec.Iter.{into_iter_items};
ghost use Rattle.utoipa_merging.specs.Merged.{IsInKeyOrder, IsMerged};
ghost use Rattle.utoipa.specs.Merging.{lists_have_fraction, any_list_has_fraction, leaves_of, ArePartsOf, IsSameButParts, ArePartsPlain};
ghost use Rattle.utoipa.specs.OpenApi.{openapi_doc};
ghost use Rattle.utoipa.specs.declared.merging.MergeFault.TheVariants.{Memory, Fraction, Composer};

use crate::document::OpenApi;
use crate::key_order::in_order_where_made;
use crate::merging::{MergeFault, merged_with, or_memory};
use std::alloc::{AllocError, Global};
use std::mem;
use std::vec::IntoIter;
use utoipa_base::{beside, set};
use utoipa_components::{Components, merge_components};
use utoipa_leaf::server::Server;
use utoipa_leaf::tag::Tag;
use utoipa_merging_parts::join_lists;
use utoipa_paths::{Paths, merge_paths};
use utoipa_security::security::SecurityRequirement;

/// Documents in brackets: which are merged first.
#[derive(Debug, Drop)]
pub enum Bracketing {
    /// A document.
    Leaf(OpenApi),
    /// What the documents on the right are merged to, merged into what those on the left are merged to.
    Join(Box<Bracketing>, Box<Bracketing>),
}

/// Merges documents pair by pair, the inner pairs first. In all brackets the same documents give the same one, and its maps stand in the order of
/// their keys.
///
/// Fails with `Fraction` exactly where there are at least two documents and a server or a tag of one of them holds a fraction, before
/// anything else and without memory, and with `Memory` where memory runs out. One document is answered as it is, without memory.
///
/// Brackets inside of brackets take some 11 KiB of the stack a level; [`merge_all`], which takes a list, takes none for its length.
pub fn merge_tree(alloc: Global, bracketing: Bracketing) -> Result<OpenApi, MergeFault>
    ensures fraction { IsErrOf result Fraction ↔ (any_list_has_fraction (map openapi_doc (leaves_of bracketing))
        ≡ true) }
    ensures composer { IsErrOf result Composer → ⊥ }
    ensures one { (d : OpenApi) → leaves_of bracketing ≡ d ∷ [] → result ≡ Ok d }
    ensures ok { IfOk result (λ merged. IsMerged (map openapi_doc (leaves_of bracketing)) (openapi_doc merged)) }
    ensures ordered { IfOk result (λ merged. IsInKeyOrder (openapi_doc merged)) }
{
    match bracketing {
        Bracketing::Leaf(document) => {
            document.in_key_order();
            Ok(document)
        }
        joined => {
            if leaf_has_fraction(&joined) {
                return Err(MergeFault::Fraction);
            }
            let merged = or_memory(merge_pairs(alloc, joined));
            in_order_where_made(&merged);
            merged
        }
    }
}

// Whether a server or a tag of one of the documents holds a fraction.
fn leaf_has_fraction(bracketing: &Bracketing) -> bool
    ensures { result ≡ list_any lists_have_fraction (map openapi_doc (leaves_of bracketing.now)) }
{
    match bracketing {
        Bracketing::Leaf(document) => document.lists_have_fraction(),
        Bracketing::Join(left, right) => leaf_has_fraction(left) || leaf_has_fraction(right),
    }
}

fn merge_pairs(alloc: Global, bracketing: Bracketing) -> Result<OpenApi, AllocError>
    requires plain { list_any lists_have_fraction (map openapi_doc (leaves_of bracketing)) ≡ false }
    ensures ok { IfOk result (λ merged. IsMerged (map openapi_doc (leaves_of bracketing)) (openapi_doc merged)) }
{
    match bracketing {
        Bracketing::Leaf(document) => Ok(document),
        Bracketing::Join(left, right) => {
            let merged = merge_pairs(alloc, Box::into_inner(left))?;
            let later = merge_pairs(alloc, Box::into_inner(right));
            let (merged, later) = beside(merged, later)?;
            merged_with(merged, alloc, later)
        }
    }
}

/// Merges all documents at once, from the first to the last: each list and each map of the result is filled once, and its maps stand in the
/// order of their keys. Answers none where there is no document.
///
/// Fails with `Fraction` exactly where there are at least two documents and a server or a tag of one of them holds a fraction, before
/// anything else and without memory, and with `Memory` where memory runs out. One document is answered as it is, without memory.
pub fn merge_all(alloc: Global, documents: Vec<OpenApi>) -> Result<Option<OpenApi>, MergeFault>
    ensures fraction { IsErrOf result Fraction ↔ (any_list_has_fraction (map openapi_doc documents.items) ≡ true) }
    ensures composer { IsErrOf result Composer → ⊥ }
    ensures none { documents.items ≡ [] → result ≡ Ok None }
    ensures one { (d : OpenApi) → documents.items ≡ d ∷ [] → result ≡ Ok (Some d) }
    ensures some { IfOk result (λ merged. merged ≡ None → documents.items ≡ []) }
    ensures ok { IfOk result
        (λ merged. IfSome merged (λ d. IsMerged (map openapi_doc documents.items) (openapi_doc d))) }
    ensures ordered { IfOk result (λ merged. IfSome merged (λ d. IsInKeyOrder (openapi_doc d))) }
{
    if documents.len() > 1 && any_has_fraction(&documents) {
        return Err(MergeFault::Fraction);
    }
    let mut documents = documents.into_iter();
    let Some(first) = documents.next() else {
        return Ok(None);
    };
    if documents.len() == 0 {
        first.in_key_order();
        return Ok(Some(first));
    }
    let merged = merge_behind(alloc, first, documents)?;
    merged.in_key_order();
    Ok(Some(merged))
}

// The first document, with the others merged into it at once.
fn merge_behind(
    alloc: Global,
    first: OpenApi,
    others: IntoIter<OpenApi>,
) -> Result<OpenApi, AllocError>
    requires plain { list_any lists_have_fraction (map openapi_doc (first ∷ into_iter_items others)) ≡ false }
    ensures ok { IfOk result
        (λ merged. IsMerged (map openapi_doc (first ∷ into_iter_items others)) (openapi_doc merged)) }
{
    let mut parts = Parts::new(alloc);
    let mut fixed = first;
    let taken = take_parts(&mut parts, alloc, &mut fixed, others);
    let ((parts, fixed), ()) = beside((parts, fixed), taken)?;
    parts.merged(alloc, fixed)
}

/// Takes the parts of the first document, of which the rest stays, and those of the others. Fails where memory runs out.
fn take_parts(
    parts: &mut Parts,
    alloc: Global,
    first: &mut OpenApi,
    others: IntoIter<OpenApi>,
) -> Result<(), AllocError>
    ensures parts { OnOk result (ArePartsOf [] parts.old → ArePartsOf (first.old ∷ into_iter_items others) parts.new) }
    ensures fixed { OnOk result (IsSameButParts first.old first.new) }
{
    parts.take(alloc, first)?;
    for document in others {
        parts.take_whole(alloc, document)?;
    }
    Ok(())
}

/// The parts of documents that are merged, of each document in turn.
#[derive(Drop)]
pub(crate) struct Parts {
    servers: Vec<Option<Vec<Server>>>,
    security: Vec<Option<Vec<SecurityRequirement>>>,
    tags: Vec<Option<Vec<Tag>>>,
    paths: Vec<Paths>,
    components: Vec<Option<Components>>,
}

impl Parts {
    fn new(alloc: Global) -> Parts
        ensures { ArePartsOf [] result }
    {
        Parts {
            servers: Vec::new(alloc),
            security: Vec::new(alloc),
            tags: Vec::new(alloc),
            paths: Vec::new(alloc),
            components: Vec::new(alloc),
        }
    }

    /// Takes the parts of one more document out of it. Fails where memory runs out.
    fn take(&mut self, alloc: Global, document: &mut OpenApi) -> Result<(), AllocError>
        ensures parts { OnOk result ((documents : List OpenApi) → ArePartsOf documents self.old
            → ArePartsOf (documents ++ document.old ∷ []) self.new) }
        ensures fixed { OnOk result (IsSameButParts document.old document.new) }
    {
        self.servers.push(document.servers.take())?;
        self.security.push(document.security.take())?;
        self.tags.push(document.tags.take())?;
        self.paths
            .push(mem::replace(&mut document.paths, Paths::new(alloc)))?;
        self.components.push(document.components.take())?;
        Ok(())
    }

    /// Takes the parts of one more document, and gives up the rest. Fails where memory runs out.
    fn take_whole(&mut self, alloc: Global, document: OpenApi) -> Result<(), AllocError>
        ensures { OnOk result ((documents : List OpenApi) → ArePartsOf documents self.old
            → ArePartsOf (documents ++ document ∷ []) self.new) }
    {
        let mut document = document;
        self.take(alloc, &mut document)
    }

    /// The document with these parts, merged, and all else of another.
    fn merged(self, alloc: Global, fixed: OpenApi) -> Result<OpenApi, AllocError>
        requires plain { ArePartsPlain self }
        ensures ok { IfOk result (λ merged. (documents : List OpenApi) (d : OpenApi) → ArePartsOf (d ∷ documents) self
            → IsSameButParts d fixed → IsMerged (map openapi_doc (d ∷ documents)) (openapi_doc merged)) }
    {
        let mut document = fixed;
        let put = self.put_merged(alloc, &mut document);
        let (document, ()) = beside(document, put)?;
        Ok(document)
    }

    /// Puts these parts, merged, into a document in place of its own. Fails where memory runs out, and then some were put.
    fn put_merged(self, alloc: Global, document: &mut OpenApi) -> Result<(), AllocError>
        requires plain { ArePartsPlain self }
        ensures ok { OnOk result ((documents : List OpenApi) (d : OpenApi) → ArePartsOf (d ∷ documents) self
            → IsSameButParts d document.old
            → IsMerged (map openapi_doc (d ∷ documents)) (openapi_doc document.new)) }
    {
        let Parts {
            servers,
            security,
            tags,
            paths,
            components,
        } = self;
        set(&mut document.servers, join_lists(alloc, servers))?;
        set(&mut document.security, join_lists(alloc, security))?;
        set(&mut document.tags, join_lists(alloc, tags))?;
        set(&mut document.paths, merge_paths(alloc, paths))?;
        set(
            &mut document.components,
            merge_components(alloc, components),
        )
    }
}

fn any_has_fraction(documents: &[OpenApi]) -> bool
    ensures { result ≡ list_any lists_have_fraction (map openapi_doc documents.now) }
{
    for document in documents {
        if document.lists_have_fraction() {
            return true;
        }
    }
    false
}
