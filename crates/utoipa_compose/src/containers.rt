//! The schemas of options, lists and what holds one value.
ghost use Rattle.std.specs.Prelude.{[], codes};
ghost use Rattle.utoipa_compose.specs.Compositions.{option_composed, list_composed, same_as};

use crate::fault::ComposeFault;
use crate::made::{array, nullable};
use crate::parts::first;
use crate::traits::{ComposeSchema, PartialSchema, ToSchema, schema_of};
use std::alloc::{AllocError, Global};
use std::borrow::{Cow, CowStr};
use std::cell::RefCell;
use std::collections::LinkedList;
use std::rc::Rc;
use utoipa_base::RefOr;
use utoipa_schema::Schema;

impl<T: ComposeSchema> ComposeSchema for Option<T> {
    ghost composed = { option_composed T.composed };

    fn compose(alloc: Global, schemas: Vec<RefOr<Schema>>) -> Result<RefOr<Schema>, ComposeFault> {
        Ok(nullable(alloc, first::<T>(alloc, schemas)?)?)
    }
}

impl<T: ComposeSchema> PartialSchema for Option<T> {
    ghost described = { option_composed T.composed [] };

    fn schema(alloc: Global) -> Result<RefOr<Schema>, ComposeFault> {
        schema_of::<Option<T>>(alloc)
    }
}

impl<T: ComposeSchema + ToSchema> ToSchema for Option<T> {
    ghost named = { codes "Option" };

    ghost referred = { T.referred };

    fn name() -> CowStr<'static, Global> {
        CowStr::Borrowed("Option")
    }

    fn schemas(
        alloc: Global,
        schemas: &mut Vec<(String, RefOr<Schema>)>,
    ) -> Result<(), AllocError> {
        T::schemas(alloc, schemas)
    }
}

impl<T: ComposeSchema> ComposeSchema for Vec<T> {
    ghost composed = { list_composed T.composed };

    fn compose(alloc: Global, schemas: Vec<RefOr<Schema>>) -> Result<RefOr<Schema>, ComposeFault> {
        Ok(array(alloc, first::<T>(alloc, schemas)?, false)?)
    }
}

impl<T: ComposeSchema> PartialSchema for Vec<T> {
    ghost described = { list_composed T.composed [] };

    fn schema(alloc: Global) -> Result<RefOr<Schema>, ComposeFault> {
        schema_of::<Vec<T>>(alloc)
    }
}

impl<T: ComposeSchema + ToSchema> ToSchema for Vec<T> {
    ghost named = { codes "Vec" };

    ghost referred = { T.referred };

    fn name() -> CowStr<'static, Global> {
        CowStr::Borrowed("Vec")
    }

    fn schemas(
        alloc: Global,
        schemas: &mut Vec<(String, RefOr<Schema>)>,
    ) -> Result<(), AllocError> {
        T::schemas(alloc, schemas)
    }
}

impl<T: ComposeSchema> ComposeSchema for LinkedList<T> {
    ghost composed = { list_composed T.composed };

    fn compose(alloc: Global, schemas: Vec<RefOr<Schema>>) -> Result<RefOr<Schema>, ComposeFault> {
        Ok(array(alloc, first::<T>(alloc, schemas)?, false)?)
    }
}

impl<T: ComposeSchema> PartialSchema for LinkedList<T> {
    ghost described = { list_composed T.composed [] };

    fn schema(alloc: Global) -> Result<RefOr<Schema>, ComposeFault> {
        schema_of::<LinkedList<T>>(alloc)
    }
}

impl<T: ComposeSchema + ToSchema> ToSchema for LinkedList<T> {
    ghost named = { codes "LinkedList" };

    ghost referred = { T.referred };

    fn name() -> CowStr<'static, Global> {
        CowStr::Borrowed("LinkedList")
    }

    fn schemas(
        alloc: Global,
        schemas: &mut Vec<(String, RefOr<Schema>)>,
    ) -> Result<(), AllocError> {
        T::schemas(alloc, schemas)
    }
}

impl<'a, T: ComposeSchema> ComposeSchema for &'a [T] {
    ghost composed = { list_composed T.composed };

    fn compose(alloc: Global, schemas: Vec<RefOr<Schema>>) -> Result<RefOr<Schema>, ComposeFault> {
        Ok(array(alloc, first::<T>(alloc, schemas)?, false)?)
    }
}

impl<'a, T: ComposeSchema> PartialSchema for &'a [T] {
    ghost described = { list_composed T.composed [] };

    fn schema(alloc: Global) -> Result<RefOr<Schema>, ComposeFault> {
        schema_of::<&'a [T]>(alloc)
    }
}

impl<'a, T: ComposeSchema + ToSchema> ToSchema for &'a [T] {
    ghost named = { codes "slice" };

    ghost referred = { T.referred };

    fn name() -> CowStr<'static, Global> {
        CowStr::Borrowed("slice")
    }

    fn schemas(
        alloc: Global,
        schemas: &mut Vec<(String, RefOr<Schema>)>,
    ) -> Result<(), AllocError> {
        T::schemas(alloc, schemas)
    }
}

impl<T: ComposeSchema> ComposeSchema for Box<T> {
    ghost composed = { same_as T.composed };

    fn compose(alloc: Global, schemas: Vec<RefOr<Schema>>) -> Result<RefOr<Schema>, ComposeFault> {
        first::<T>(alloc, schemas)
    }
}

impl<T: ComposeSchema> PartialSchema for Box<T> {
    ghost described = { same_as T.composed [] };

    fn schema(alloc: Global) -> Result<RefOr<Schema>, ComposeFault> {
        schema_of::<Box<T>>(alloc)
    }
}

impl<T: ComposeSchema + ToSchema> ToSchema for Box<T> {
    ghost named = { codes "Box" };

    ghost referred = { T.referred };

    fn name() -> CowStr<'static, Global> {
        CowStr::Borrowed("Box")
    }

    fn schemas(
        alloc: Global,
        schemas: &mut Vec<(String, RefOr<Schema>)>,
    ) -> Result<(), AllocError> {
        T::schemas(alloc, schemas)
    }
}

impl<'a, T: ComposeSchema> ComposeSchema for Cow<'a, T> {
    ghost composed = { same_as T.composed };

    fn compose(alloc: Global, schemas: Vec<RefOr<Schema>>) -> Result<RefOr<Schema>, ComposeFault> {
        first::<T>(alloc, schemas)
    }
}

impl<'a, T: ComposeSchema> PartialSchema for Cow<'a, T> {
    ghost described = { same_as T.composed [] };

    fn schema(alloc: Global) -> Result<RefOr<Schema>, ComposeFault> {
        schema_of::<Cow<'a, T>>(alloc)
    }
}

impl<'a, T: ComposeSchema + ToSchema> ToSchema for Cow<'a, T> {
    ghost named = { codes "Cow" };

    ghost referred = { T.referred };

    fn name() -> CowStr<'static, Global> {
        CowStr::Borrowed("Cow")
    }

    fn schemas(
        alloc: Global,
        schemas: &mut Vec<(String, RefOr<Schema>)>,
    ) -> Result<(), AllocError> {
        T::schemas(alloc, schemas)
    }
}

impl<T: ComposeSchema> ComposeSchema for RefCell<T> {
    ghost composed = { same_as T.composed };

    fn compose(alloc: Global, schemas: Vec<RefOr<Schema>>) -> Result<RefOr<Schema>, ComposeFault> {
        first::<T>(alloc, schemas)
    }
}

impl<T: ComposeSchema> PartialSchema for RefCell<T> {
    ghost described = { same_as T.composed [] };

    fn schema(alloc: Global) -> Result<RefOr<Schema>, ComposeFault> {
        schema_of::<RefCell<T>>(alloc)
    }
}

impl<T: ComposeSchema + ToSchema> ToSchema for RefCell<T> {
    ghost named = { codes "RefCell" };

    ghost referred = { T.referred };

    fn name() -> CowStr<'static, Global> {
        CowStr::Borrowed("RefCell")
    }

    fn schemas(
        alloc: Global,
        schemas: &mut Vec<(String, RefOr<Schema>)>,
    ) -> Result<(), AllocError> {
        T::schemas(alloc, schemas)
    }
}

impl<T: ComposeSchema> ComposeSchema for Rc<T> {
    ghost composed = { same_as T.composed };

    fn compose(alloc: Global, schemas: Vec<RefOr<Schema>>) -> Result<RefOr<Schema>, ComposeFault> {
        first::<T>(alloc, schemas)
    }
}

impl<T: ComposeSchema> PartialSchema for Rc<T> {
    ghost described = { same_as T.composed [] };

    fn schema(alloc: Global) -> Result<RefOr<Schema>, ComposeFault> {
        schema_of::<Rc<T>>(alloc)
    }
}

impl<T: ComposeSchema + ToSchema> ToSchema for Rc<T> {
    ghost named = { codes "Rc" };

    ghost referred = { T.referred };

    fn name() -> CowStr<'static, Global> {
        CowStr::Borrowed("Rc")
    }

    fn schemas(
        alloc: Global,
        schemas: &mut Vec<(String, RefOr<Schema>)>,
    ) -> Result<(), AllocError> {
        T::schemas(alloc, schemas)
    }
}
