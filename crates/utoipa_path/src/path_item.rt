//! The operations of paths.
ghost use Rattle.std.specs.Prelude.{◌≡◌, ◌∷◌, [], List, IfOk, OnOk, OnErr, string_cmp, codes};
ghost use Rattle.std.specs.BTreeMap.{insert_entry};
ghost use Rattle.std.specs.Iterator.{IsFinite};
ghost use Rattle.std.specs.Option.{ForSome};
ghost use Rattle.utoipa_base.specs.Fill.{Pairs, put_each};
ghost use Rattle.utoipa_base.specs.Lists.{EachIterator, GivesAll, IsFilledIfAny};
ghost use Rattle.utoipa_leaf.specs.declared.path.HttpMethod.{HttpMethod};
ghost use Rattle.utoipa_merging.specs.Merged.{IsItemMerged, IsInOrder};
ghost use Rattle.utoipa_merging.specs.Slots.{field_at};
ghost use Rattle.utoipa_path.specs.Builders.{PathItemFields, Operations};
ghost use Rattle.utoipa_path.specs.Docs.{operation_doc, path_item_doc};
ghost use Rattle.utoipa_path.specs.Lists.{ArePlacesIfAny, AreReferencesIfAny};
ghost use Rattle.utoipa_path.specs.Methods.{with_operation, IsEmptyPathItem, HoldAtMethods};
ghost use Rattle.utoipa_path.specs.PathItem.{built_path_item};
ghost use Rattle.utoipa_path.specs.declared.types.Operation.{Operation};
ghost use Rattle.utoipa_path.specs.declared.types.PathItem.{out-PathItem};

use crate::copy::clone_operation;
use crate::lists::{places_if_any, references_if_any};
use crate::methods::{set_operation, with_missing_of};
use crate::operation::Operation;
pub use crate::types::PathItem;
use std::alloc::{AllocError, Global};
use std::collections::BTreeMap;
use std::mem;
use utoipa_base::{Extensions, Ref, RefOr, list_if_any, put, put_each, set};
use utoipa_leaf::path::HttpMethod;
use utoipa_leaf::server::Server;
use utoipa_merging_parts::fill_missing;
use utoipa_operation_parts::Parameter;

impl PathItem {
    /// An item with one operation, of which nothing else is said. Takes no memory.
    pub fn new(alloc: Global, method: HttpMethod, operation: Operation) -> PathItem
        ensures { (empty : PathItemFields) × IsEmptyPathItem empty
            × (out-PathItem result ≡ with_operation method operation empty) }
    {
        let mut item = empty_path_item(alloc);
        set_operation(&mut item, method, operation);
        item
    }

    /// An item with a copy of an operation at each of some methods, of which nothing else is said. The iterator has to end. Fails
    /// where memory runs out.
    pub fn from_http_methods<I: IntoIterator<Item = HttpMethod>>(
        alloc: Global,
        methods: I,
        operation: Operation,
    ) -> Result<PathItem, AllocError>
        requires can { EachIterator I.into_iter_gives I.IntoIter.can_next methods }
        requires ends { EachIterator I.into_iter_gives (λ it. IsFinite (I.IntoIter.remaining it)) methods }
        ensures { IfOk result (λ item. (given : List HttpMethod) × (empty : PathItemFields)
            × GivesAll I.into_iter_gives I.IntoIter.next_gives methods given
            × IsEmptyPathItem empty × HoldAtMethods given (operation_doc operation) empty (out-PathItem item)) }
    {
        let mut item = empty_path_item(alloc);
        let copied = set_copies(&mut item, alloc, methods, &operation);
        drop(operation);
        copied.and(Ok(item))
    }

    /// A builder that begins with an item of which nothing is said, with no operation. Takes no memory.
    pub fn builder(alloc: Global) -> PathItemBuilder
        ensures { IsEmptyPathItem (built_path_item result) }
    {
        PathItemBuilder::new(alloc)
    }

    /// Fills in each operation of another item that is missing here. All else stays as it is, and the rest of the other item is
    /// given up.
    ///
    /// Fails where memory runs out, and then nothing has changed.
    pub fn merge_operations(&mut self, alloc: Global, other: PathItem) -> Result<(), AllocError>
        ensures ok { OnOk result (IsItemMerged (path_item_doc self.old ∷ path_item_doc other ∷ [])
            (path_item_doc self.new)) }
        ensures err { OnErr result (path_item_doc self.new ≡ path_item_doc self.old) }
        ensures ordered { IsInOrder (field_at (codes "additionalOperations") (path_item_doc self.old))
            → IsInOrder (field_at (codes "additionalOperations") (path_item_doc self.new)) }
    {
        let mut other = other;
        let additional = mem::replace(&mut other.additional_operations, BTreeMap::new(alloc));
        match fill_missing(&mut self.additional_operations, alloc, additional) {
            Ok(()) => {
                let own = mem::replace(self, empty_path_item(alloc));
                drop(mem::replace(self, with_missing_of(own, other)));
                Ok(())
            }
            Err(refused) => {
                drop(other);
                Err(refused)
            }
        }
    }
}

// Sets a copy of the operation at each of the methods. Where memory runs out, some may be set.
fn set_copies<I: IntoIterator<Item = HttpMethod>>(
    item: &mut PathItem,
    alloc: Global,
    methods: I,
    operation: &Operation,
) -> Result<(), AllocError>
    requires can { EachIterator I.into_iter_gives I.IntoIter.can_next methods }
    requires ends { EachIterator I.into_iter_gives (λ it. IsFinite (I.IntoIter.remaining it)) methods }
    ensures { OnOk result ((given : List HttpMethod) × GivesAll I.into_iter_gives I.IntoIter.next_gives methods given
        × HoldAtMethods given (operation_doc operation.now) (out-PathItem item.old) (out-PathItem item.new)) }
{
    for method in methods {
        let copy = clone_operation(alloc, operation)?;
        set_operation(item, method, copy);
    }
    Ok(())
}

/// An item of which nothing is said, with no operation. Takes no memory.
pub(crate) fn empty_path_item(alloc: Global) -> PathItem
    ensures { IsEmptyPathItem (out-PathItem result) }
{
    PathItem {
        ref_path: None,
        summary: None,
        description: None,
        servers: None,
        parameters: None,
        get: None,
        put: None,
        post: None,
        delete: None,
        options: None,
        head: None,
        patch: None,
        trace: None,
        query: None,
        additional_operations: BTreeMap::new(alloc),
        extensions: None,
    }
}

/// Builds a [`PathItem`].
#[derive(Debug, Drop)]
pub struct PathItemBuilder {
    item: PathItem,
}

impl PathItemBuilder {
    /// Begins with an item of which nothing is said, with no operation. Takes no memory.
    pub fn new(alloc: Global) -> PathItemBuilder
        ensures { IsEmptyPathItem (built_path_item result) }
    {
        PathItemBuilder {
            item: empty_path_item(alloc),
        }
    }

    /// Sets where the definition of the item stands.
    pub fn ref_path(mut self, ref_path: Option<String>) -> PathItemBuilder
        ensures { built_path_item result ≡ record (built_path_item self) { ref_path = ref_path } }
    {
        self.item.ref_path = ref_path;
        self
    }

    /// Sets the operation of a method, in place of an earlier one.
    pub fn operation(mut self, method: HttpMethod, operation: Operation) -> PathItemBuilder
        ensures { built_path_item result ≡ with_operation method operation (built_path_item self) }
    {
        set_operation(&mut self.item, method, operation);
        self
    }

    /// Sets the operation of the method QUERY, or that there is none.
    pub fn query(mut self, operation: Option<Operation>) -> PathItemBuilder
        ensures { built_path_item result ≡ record (built_path_item self) { query = operation } }
    {
        // An assignment would drop the old operation where it stands, for which the check writes no proof.
        drop(mem::replace(&mut self.item.query, operation));
        self
    }

    /// Puts an operation under the name of its method, in place of an earlier one of that name.
    ///
    /// Fails where memory runs out, and then gives up what was built.
    pub fn additional_operation(
        mut self,
        method: String,
        operation: Operation,
    ) -> Result<PathItemBuilder, AllocError>
        ensures { IfOk result (λ b. (held : Operations)
            × (held.entries
            ≡ insert_entry string_cmp (built_path_item self).additional_operations.entries method operation)
            × (built_path_item b ≡ record (built_path_item self) { additional_operations = held })) }
    {
        put(&mut self.item.additional_operations, method, operation).and(Ok(self))
    }

    /// Puts each of the operations under the name of its method, in place of an earlier one of that name. The iterator has to end.
    ///
    /// Fails where memory runs out, and then gives up what was built.
    pub fn additional_operations<I: IntoIterator<Item = (String, Operation)>>(
        mut self,
        operations: I,
    ) -> Result<PathItemBuilder, AllocError>
        requires can { EachIterator I.into_iter_gives I.IntoIter.can_next operations }
        requires ends { EachIterator I.into_iter_gives (λ it. IsFinite (I.IntoIter.remaining it)) operations }
        ensures { IfOk result (λ b. (given : Pairs Operation) × (held : Operations)
            × GivesAll I.into_iter_gives I.IntoIter.next_gives operations given
            × (held.entries ≡ put_each given (built_path_item self).additional_operations.entries)
            × (built_path_item b ≡ record (built_path_item self) { additional_operations = held })) }
    {
        put_each(&mut self.item.additional_operations, operations).and(Ok(self))
    }

    /// Sets what the path is for, in short.
    pub fn summary(mut self, summary: Option<String>) -> PathItemBuilder
        ensures { built_path_item result ≡ record (built_path_item self) { summary = summary } }
    {
        self.item.summary = summary;
        self
    }

    /// Sets what the path is for.
    pub fn description(mut self, description: Option<String>) -> PathItemBuilder
        ensures { built_path_item result ≡ record (built_path_item self) { description = description } }
    {
        self.item.description = description;
        self
    }

    /// Sets the servers of the operations that have none of their own. The iterator has to end.
    ///
    /// Fails where memory runs out, and then gives up what was built.
    pub fn servers<I: IntoIterator<Item = Server>>(
        mut self,
        alloc: Global,
        servers: Option<I>,
    ) -> Result<PathItemBuilder, AllocError>
        requires can { ForSome servers (EachIterator I.into_iter_gives I.IntoIter.can_next) }
        requires ends { ForSome servers (EachIterator I.into_iter_gives (λ it. IsFinite (I.IntoIter.remaining it))) }
        ensures { IfOk result (λ b. (listed : _) × IsFilledIfAny I.into_iter_gives I.IntoIter.next_gives servers listed
            × (built_path_item b ≡ record (built_path_item self) { servers = listed })) }
    {
        let servers = list_if_any(alloc, servers);
        set(&mut self.item.servers, servers).and(Ok(self))
    }

    /// Sets the parameters that all operations of the path have. The iterator has to end.
    ///
    /// Fails where memory runs out, and then gives up what was built.
    pub fn parameters<I: IntoIterator<Item = Parameter>>(
        mut self,
        alloc: Global,
        parameters: Option<I>,
    ) -> Result<PathItemBuilder, AllocError>
        requires can { ForSome parameters (EachIterator I.into_iter_gives I.IntoIter.can_next) }
        requires ends { ForSome parameters (EachIterator I.into_iter_gives
            (λ it. IsFinite (I.IntoIter.remaining it))) }
        ensures { IfOk result (λ b. (listed : _)
            × ArePlacesIfAny I.into_iter_gives I.IntoIter.next_gives parameters listed
            × (built_path_item b ≡ record (built_path_item self) { parameters = listed })) }
    {
        let parameters = places_if_any(alloc, parameters);
        set(&mut self.item.parameters, parameters).and(Ok(self))
    }

    /// Sets references to the parameters that all operations of the path have. The iterator has to end.
    ///
    /// Fails where memory runs out, and then gives up what was built.
    pub fn parameter_refs<I: IntoIterator<Item = Ref>>(
        mut self,
        alloc: Global,
        references: Option<I>,
    ) -> Result<PathItemBuilder, AllocError>
        requires can { ForSome references (EachIterator I.into_iter_gives I.IntoIter.can_next) }
        requires ends { ForSome references (EachIterator I.into_iter_gives
            (λ it. IsFinite (I.IntoIter.remaining it))) }
        ensures { IfOk result (λ b. (listed : _)
            × AreReferencesIfAny I.into_iter_gives I.IntoIter.next_gives references listed
            × (built_path_item b ≡ record (built_path_item self) { parameters = listed })) }
    {
        let parameters = references_if_any(alloc, references);
        set(&mut self.item.parameters, parameters).and(Ok(self))
    }

    /// Sets the specification extensions.
    pub fn extensions(mut self, extensions: Option<Extensions>) -> PathItemBuilder
        ensures { built_path_item result ≡ record (built_path_item self) { extensions = extensions } }
    {
        self.item.extensions = extensions;
        self
    }

    /// The item that was built.
    pub fn build(self) -> PathItem
        ensures { out-PathItem result ≡ built_path_item self }
    {
        self.item
    }
}

impl From<PathItem> for PathItemBuilder {
    ghost from_gives = { λ item builder. built_path_item builder ≡ out-PathItem item };

    fn from(item: PathItem) -> PathItemBuilder {
        PathItemBuilder { item }
    }
}

impl From<PathItemBuilder> for PathItem {
    ghost from_gives = { λ builder item. out-PathItem item ≡ built_path_item builder };

    fn from(builder: PathItemBuilder) -> PathItem {
        builder.build()
    }
}

/// The value itself.
impl From<PathItem> for RefOr<PathItem> {
    ghost use Rattle.utoipa_base.specs.declared.refs.RefOr.TheVariants as places;

    ghost from_gives = { λ value place. place ≡ places.T value };

    fn from(value: PathItem) -> RefOr<PathItem> {
        RefOr::T(value)
    }
}
