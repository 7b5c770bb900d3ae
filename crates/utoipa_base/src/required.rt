//! Whether something has to be sent.
ghost use Rattle.std.specs.Prelude.{false};
ghost use Rattle.utoipa_base.specs.Kinds.{flag};
ghost use Rattle.utoipa_base.specs.Flags.{required_doc};
ghost use Rattle.utoipa_base.specs.OfKind.{required_of_kind};

use crate::emit::{Documented, Emit};
use crate::fault::ReadFault;
use crate::readings::Readings;
use crate::scalar::read_flag;
use crate::sink::JsonSink;
use crate::tree::{Place, Tree};
use serde_json::Value;
use std::alloc::{AllocError, Global};

/// Whether a parameter or a request body has to be sent: the member `required`, a flag.
#[derive(Clone, Copy, PartialEq, Eq, Debug, Default)]
pub enum Required {
    /// It has to be sent.
    True,
    /// It may be left out.
    #[default]
    False,
}

/// True or false.
#[tactic(auto, using(crate::proofs::ByKind::by_kind, crate::proofs::Places::places))]
impl Tree for Required {
    ghost is_of_kind = { required_of_kind };

    fn read_plain(
        _alloc: Global,
        tree: &Value,
        _readings: &mut Readings,
    ) -> Result<Required, ReadFault> {
        if read_flag(tree)? {
            Ok(Required::True)
        } else {
            Ok(Required::False)
        }
    }

    fn try_clone(&self, _alloc: Global) -> Result<Required, AllocError> {
        Ok(*self)
    }
}

impl Place for Required {
    fn is_schema() -> bool {
        false
    }
}

impl Documented for Required {
    ghost kind = { flag };

    ghost doc = { required_doc };
}

/// True or false.
#[tactic(auto, using(crate::proofs::Sending::by_sending))]
impl Emit for Required {
    fn emit<S: JsonSink>(&self, out: &mut S) -> Result<(), AllocError> {
        match self {
            Required::True => out.boolean(true),
            Required::False => out.boolean(false),
        }
    }
}
