//! Which document each operation comes from, where documents are merged.
ghost use Rattle.std.specs.Prelude.{◌≡◌, IfOk, OnOk};
ghost use Rattle.std.specs.Option.{option_or};
ghost use Rattle.serde_json.specs.View.{view};
ghost use Rattle.utoipa_meaning.specs.Changes.{is_number};
ghost use Rattle.utoipa_meaning.specs.Operations as specs;
ghost use Rattle.utoipa_meaning.specs.Views.{noted, place_of, all_operations, trees_of};

use crate::operation::{Operation, OperationPlace, operations};
use serde_json::Value;
use std::alloc::{AllocError, Global};
use std::collections::BTreeMap;

/// Notes that a document has an operation, unless an earlier one has it. Fails where memory runs out.
fn note<'a>(
    origins: &mut BTreeMap<OperationPlace<'a>, usize>,
    place: OperationPlace<'a>,
    number: usize,
) -> Result<(), AllocError>
    ensures { OnOk result ((p : specs.OperationPlace) → noted origins.new p
        ≡ option_or (noted origins.old p) (specs.if_so (specs.same_place p (place_of place.entry)) number)) }
{
    if !origins.contains_key(&place) {
        drop(origins.insert(place, number)?);
    }
    Ok(())
}

/// Notes that a document has some operations. Fails where memory runs out.
fn note_all<'a>(
    origins: &mut BTreeMap<OperationPlace<'a>, usize>,
    operations: &Vec<Operation<'a>>,
    number: usize,
) -> Result<(), AllocError>
    ensures { OnOk result ((p : specs.OperationPlace) → noted origins.new p
        ≡ option_or (noted origins.old p) (specs.if_so (specs.stands_among p (all_operations operations.now.items)) number)) }
{
    for operation in operations {
        note(origins, operation.place, number)?;
    }
    Ok(())
}

/// The number of the first document that has an operation, by where it stands. Fails where memory runs out.
pub(crate) fn origins<'a>(
    alloc: Global,
    documents: &'a [Value],
) -> Result<BTreeMap<OperationPlace<'a>, usize>, AllocError>
    ensures { IfOk result (λ m. (p : specs.OperationPlace) → noted m p
        ≡ specs.first_with p 0 (trees_of documents.now)) }
{
    let mut origins = BTreeMap::new(alloc);
    for (number, document) in documents.iter().enumerate() {
        let found = operations(alloc, document)?;
        note_all(&mut origins, &found, number)?;
    }
    Ok(origins)
}

/// Whether an operation comes from the document of a number.
pub(crate) fn comes_from<'a>(
    origins: &BTreeMap<OperationPlace<'a>, usize>,
    place: OperationPlace<'a>,
    number: usize,
) -> bool
    ensures { result ≡ is_number number (noted origins.now (place_of place.entry)) }
{
    match origins.get(&place) {
        Some(first) => *first == number,
        None => false,
    }
}
