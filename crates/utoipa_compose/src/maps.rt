//! The schemas of maps.
ghost use Rattle.std.specs.Prelude.{[], ◌++◌, codes};
ghost use Rattle.utoipa_compose.specs.Compositions.{map_composed};

use crate::fault::ComposeFault;
use crate::made::map;
use crate::parts::{first_two, referred_by_both};
use crate::traits::{ComposeSchema, PartialSchema, ToSchema, schema_of};
use indexmap::IndexMap;
use std::alloc::{AllocError, Global};
use std::borrow::CowStr;
use std::collections::{BTreeMap, HashMap};
use std::hash::{BuildHasher, Hash};
use utoipa_base::RefOr;
use utoipa_schema::Schema;

impl<K: ComposeSchema + Eq + Hash, T: ComposeSchema, S: BuildHasher> ComposeSchema
    for HashMap<K, T, S> {
    ghost composed = { map_composed K.composed T.composed };

    fn compose(alloc: Global, schemas: Vec<RefOr<Schema>>) -> Result<RefOr<Schema>, ComposeFault> {
        let (keys, values) = first_two::<K, T>(alloc, schemas)?;
        map(alloc, keys, values)
    }
}

impl<K: ComposeSchema + Eq + Hash, T: ComposeSchema, S: BuildHasher> PartialSchema
    for HashMap<K, T, S> {
    ghost described = { map_composed K.composed T.composed [] };

    fn schema(alloc: Global) -> Result<RefOr<Schema>, ComposeFault> {
        schema_of::<HashMap<K, T, S>>(alloc)
    }
}

impl<K: ComposeSchema + ToSchema + Eq + Hash, T: ComposeSchema + ToSchema, S: BuildHasher> ToSchema
    for HashMap<K, T, S> {
    ghost named = { codes "HashMap" };

    ghost referred = { K.referred ++ T.referred };

    fn name() -> CowStr<'static, Global> {
        CowStr::Borrowed("HashMap")
    }

    fn schemas(
        alloc: Global,
        schemas: &mut Vec<(String, RefOr<Schema>)>,
    ) -> Result<(), AllocError> {
        referred_by_both::<K, T>(alloc, schemas)
    }
}

impl<K: ComposeSchema + Ord, T: ComposeSchema> ComposeSchema for BTreeMap<K, T> {
    ghost composed = { map_composed K.composed T.composed };

    fn compose(alloc: Global, schemas: Vec<RefOr<Schema>>) -> Result<RefOr<Schema>, ComposeFault> {
        let (keys, values) = first_two::<K, T>(alloc, schemas)?;
        map(alloc, keys, values)
    }
}

impl<K: ComposeSchema + Ord, T: ComposeSchema> PartialSchema for BTreeMap<K, T> {
    ghost described = { map_composed K.composed T.composed [] };

    fn schema(alloc: Global) -> Result<RefOr<Schema>, ComposeFault> {
        schema_of::<BTreeMap<K, T>>(alloc)
    }
}

impl<K: ComposeSchema + ToSchema + Ord, T: ComposeSchema + ToSchema> ToSchema for BTreeMap<K, T> {
    ghost named = { codes "BTreeMap" };

    ghost referred = { K.referred ++ T.referred };

    fn name() -> CowStr<'static, Global> {
        CowStr::Borrowed("BTreeMap")
    }

    fn schemas(
        alloc: Global,
        schemas: &mut Vec<(String, RefOr<Schema>)>,
    ) -> Result<(), AllocError> {
        referred_by_both::<K, T>(alloc, schemas)
    }
}

impl<K: ComposeSchema + Eq + Hash, T: ComposeSchema, S: BuildHasher> ComposeSchema
    for IndexMap<K, T, S> {
    ghost composed = { map_composed K.composed T.composed };

    fn compose(alloc: Global, schemas: Vec<RefOr<Schema>>) -> Result<RefOr<Schema>, ComposeFault> {
        let (keys, values) = first_two::<K, T>(alloc, schemas)?;
        map(alloc, keys, values)
    }
}

impl<K: ComposeSchema + Eq + Hash, T: ComposeSchema, S: BuildHasher> PartialSchema
    for IndexMap<K, T, S> {
    ghost described = { map_composed K.composed T.composed [] };

    fn schema(alloc: Global) -> Result<RefOr<Schema>, ComposeFault> {
        schema_of::<IndexMap<K, T, S>>(alloc)
    }
}

impl<K: ComposeSchema + ToSchema + Eq + Hash, T: ComposeSchema + ToSchema, S: BuildHasher> ToSchema
    for IndexMap<K, T, S> {
    ghost named = { codes "IndexMap" };

    ghost referred = { K.referred ++ T.referred };

    fn name() -> CowStr<'static, Global> {
        CowStr::Borrowed("IndexMap")
    }

    fn schemas(
        alloc: Global,
        schemas: &mut Vec<(String, RefOr<Schema>)>,
    ) -> Result<(), AllocError> {
        referred_by_both::<K, T>(alloc, schemas)
    }
}
