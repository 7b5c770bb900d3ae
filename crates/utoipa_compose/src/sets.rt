//! The schemas of sets.
ghost use Rattle.std.specs.Prelude.{[], codes};
ghost use Rattle.utoipa_compose.specs.Compositions.{set_composed};

use crate::fault::ComposeFault;
use crate::made::array;
use crate::parts::first;
use crate::traits::{ComposeSchema, PartialSchema, ToSchema, schema_of};
use indexmap::IndexSet;
use std::alloc::{AllocError, Global};
use std::borrow::CowStr;
use std::collections::{BTreeSet, HashSet};
use std::hash::{BuildHasher, Hash};
use utoipa_base::RefOr;
use utoipa_schema::Schema;

impl<K: ComposeSchema + Eq + Hash, S: BuildHasher> ComposeSchema for HashSet<K, S> {
    ghost composed = { set_composed K.composed };

    fn compose(alloc: Global, schemas: Vec<RefOr<Schema>>) -> Result<RefOr<Schema>, ComposeFault> {
        Ok(array(alloc, first::<K>(alloc, schemas)?, true)?)
    }
}

impl<K: ComposeSchema + Eq + Hash, S: BuildHasher> PartialSchema for HashSet<K, S> {
    ghost described = { set_composed K.composed [] };

    fn schema(alloc: Global) -> Result<RefOr<Schema>, ComposeFault> {
        schema_of::<HashSet<K, S>>(alloc)
    }
}

impl<K: ComposeSchema + ToSchema + Eq + Hash, S: BuildHasher> ToSchema for HashSet<K, S> {
    ghost named = { codes "HashSet" };

    ghost referred = { K.referred };

    fn name() -> CowStr<'static, Global> {
        CowStr::Borrowed("HashSet")
    }

    fn schemas(
        alloc: Global,
        schemas: &mut Vec<(String, RefOr<Schema>)>,
    ) -> Result<(), AllocError> {
        K::schemas(alloc, schemas)
    }
}

impl<K: ComposeSchema + Ord> ComposeSchema for BTreeSet<K> {
    ghost composed = { set_composed K.composed };

    fn compose(alloc: Global, schemas: Vec<RefOr<Schema>>) -> Result<RefOr<Schema>, ComposeFault> {
        Ok(array(alloc, first::<K>(alloc, schemas)?, true)?)
    }
}

impl<K: ComposeSchema + Ord> PartialSchema for BTreeSet<K> {
    ghost described = { set_composed K.composed [] };

    fn schema(alloc: Global) -> Result<RefOr<Schema>, ComposeFault> {
        schema_of::<BTreeSet<K>>(alloc)
    }
}

impl<K: ComposeSchema + ToSchema + Ord> ToSchema for BTreeSet<K> {
    ghost named = { codes "BTreeSet" };

    ghost referred = { K.referred };

    fn name() -> CowStr<'static, Global> {
        CowStr::Borrowed("BTreeSet")
    }

    fn schemas(
        alloc: Global,
        schemas: &mut Vec<(String, RefOr<Schema>)>,
    ) -> Result<(), AllocError> {
        K::schemas(alloc, schemas)
    }
}

impl<K: ComposeSchema + Eq + Hash> ComposeSchema for IndexSet<K> {
    ghost composed = { set_composed K.composed };

    fn compose(alloc: Global, schemas: Vec<RefOr<Schema>>) -> Result<RefOr<Schema>, ComposeFault> {
        Ok(array(alloc, first::<K>(alloc, schemas)?, true)?)
    }
}

impl<K: ComposeSchema + Eq + Hash> PartialSchema for IndexSet<K> {
    ghost described = { set_composed K.composed [] };

    fn schema(alloc: Global) -> Result<RefOr<Schema>, ComposeFault> {
        schema_of::<IndexSet<K>>(alloc)
    }
}

impl<K: ComposeSchema + ToSchema + Eq + Hash> ToSchema for IndexSet<K> {
    ghost named = { codes "IndexSet" };

    ghost referred = { K.referred };

    fn name() -> CowStr<'static, Global> {
        CowStr::Borrowed("IndexSet")
    }

    fn schemas(
        alloc: Global,
        schemas: &mut Vec<(String, RefOr<Schema>)>,
    ) -> Result<(), AllocError> {
        K::schemas(alloc, schemas)
    }
}
