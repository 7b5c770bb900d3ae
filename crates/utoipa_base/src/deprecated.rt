//! Whether something should no longer be used.
ghost use Rattle.std.specs.Prelude.{false};
ghost use Rattle.utoipa_base.specs.Kinds.{flag};
ghost use Rattle.utoipa_base.specs.Flags.{deprecated_doc};
ghost use Rattle.utoipa_base.specs.OfKind.{deprecated_of_kind};

use crate::emit::{Documented, Emit};
use crate::fault::ReadFault;
use crate::readings::Readings;
use crate::scalar::read_flag;
use crate::sink::JsonSink;
use crate::tree::{Place, Tree};
use serde_json::Value;
use std::alloc::{AllocError, Global};

/// Whether an operation, parameter, header or security scheme is deprecated: the member `deprecated`, a flag.
#[derive(Clone, Copy, PartialEq, Eq, Debug, Default)]
pub enum Deprecated {
    /// It should no longer be used.
    True,
    /// It may be used.
    #[default]
    False,
}

/// True or false.
#[tactic(auto, using(crate::proofs::ByKind::by_kind, crate::proofs::Places::places))]
impl Tree for Deprecated {
    ghost is_of_kind = { deprecated_of_kind };

    fn read_plain(
        _alloc: Global,
        tree: &Value,
        _readings: &mut Readings,
    ) -> Result<Deprecated, ReadFault> {
        if read_flag(tree)? {
            Ok(Deprecated::True)
        } else {
            Ok(Deprecated::False)
        }
    }

    fn try_clone(&self, _alloc: Global) -> Result<Deprecated, AllocError> {
        Ok(*self)
    }
}

impl Place for Deprecated {
    fn is_schema() -> bool {
        false
    }
}

impl Documented for Deprecated {
    ghost kind = { flag };

    ghost doc = { deprecated_doc };
}

/// True or false.
#[tactic(auto, using(crate::proofs::Sending::by_sending))]
impl Emit for Deprecated {
    fn emit<S: JsonSink>(&self, out: &mut S) -> Result<(), AllocError> {
        match self {
            Deprecated::True => out.boolean(true),
            Deprecated::False => out.boolean(false),
        }
    }
}
