//! Which operations and path items come back from what they are written as.
ghost use Rattle.std.specs.Prelude.{◌≡◌};
ghost use Rattle.utoipa_base.specs.Unambiguous.{are_unambiguous};
ghost use Rattle.utoipa_path.specs.Docs.{operation_doc};
ghost use Rattle.utoipa_path.specs.ItemMembers.{up_to_get_docs, head_to_post_docs, from_put_docs};
ghost use Rattle.utoipa_path.specs.OfKind.{operation_of_kind, path_item_of_kind, path_item_is_no_text};
ghost use Rattle.utoipa_path.specs.declared.types.PathItem.{out-PathItem};

use crate::operation::Operation;
use crate::path_item::PathItem;
use utoipa_base::{
    NeverText, NoReference, Unambiguous, extensions_are_unambiguous, option_is_unambiguous,
};

#[tactic(auto, using(crate::proofs::UnambiguousFields::by_operation_parts))]
impl Unambiguous for Operation {
    ghost of_kind = { operation_of_kind };

    #[cycle(operations)]
    fn is_unambiguous(&self) -> bool {
        self.callbacks.is_unambiguous()
            && option_is_unambiguous(&self.external_docs)
            && option_is_unambiguous(&self.parameters)
            && option_is_unambiguous(&self.request_body)
            && self.responses.is_unambiguous()
            && option_is_unambiguous(&self.servers)
            && extensions_are_unambiguous(&self.extensions)
    }
}

// Whether the members of a path item from `$ref` to `get` are unambiguous.
#[tactic(auto, using(crate::proofs::UnambiguousFields::by_operation_fields))]
#[cycle(operations)]
fn up_to_get_passes(item: &PathItem) -> bool
    ensures { result ≡ are_unambiguous (up_to_get_docs operation_doc (out-PathItem item.now)) }
{
    item.additional_operations.is_unambiguous()
        && option_is_unambiguous(&item.delete)
        && option_is_unambiguous(&item.get)
}

// Whether the members of a path item from `head` to `post` are unambiguous.
#[tactic(auto, using(crate::proofs::UnambiguousFields::by_operation_fields))]
#[cycle(operations)]
fn head_to_post_passes(item: &PathItem) -> bool
    ensures { result ≡ are_unambiguous (head_to_post_docs operation_doc (out-PathItem item.now)) }
{
    option_is_unambiguous(&item.head)
        && option_is_unambiguous(&item.options)
        && option_is_unambiguous(&item.parameters)
        && option_is_unambiguous(&item.patch)
        && option_is_unambiguous(&item.post)
}

// Whether the members of a path item from `put` to `trace` are unambiguous.
#[tactic(auto, using(crate::proofs::UnambiguousFields::by_operation_fields))]
#[cycle(operations)]
fn from_put_passes(item: &PathItem) -> bool
    ensures { result ≡ are_unambiguous (from_put_docs operation_doc (out-PathItem item.now)) }
{
    option_is_unambiguous(&item.put)
        && option_is_unambiguous(&item.query)
        && option_is_unambiguous(&item.servers)
        && option_is_unambiguous(&item.trace)
}

#[tactic(auto, using(crate::proofs::UnambiguousFields::by_item_parts))]
impl Unambiguous for PathItem {
    ghost of_kind = { path_item_of_kind };

    #[cycle(operations)]
    fn is_unambiguous(&self) -> bool {
        up_to_get_passes(self)
            && head_to_post_passes(self)
            && from_put_passes(self)
            && extensions_are_unambiguous(&self.extensions)
    }
}

/// A path item may have a `$ref` of its own (Path Item Object: section 4.8.9), by which it reads as a reference in a callback.
impl NoReference for PathItem {
    fn is_no_reference(&self) -> bool {
        self.ref_path.is_none()
    }
}

/// A path item is written as an object.
impl NeverText for PathItem {
    ghost is_no_text = { path_item_is_no_text };
}
