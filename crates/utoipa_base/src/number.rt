//! The bounds of schemas.
ghost use Rattle.std.specs.Prelude.{◌≡◌};
ghost use Rattle.utoipa_base.specs.Kinds.{numeral};
ghost use Rattle.utoipa_base.specs.Numbers.{number_doc};
ghost use Rattle.utoipa_base.specs.OfKind.{number_of_kind};
ghost use Rattle.utoipa_base.specs.declared.number.Number.TheVariants.{Int, UInt};

use crate::emit::{Documented, Emit};
use crate::fault::ReadFault;
use crate::readings::Readings;
use crate::sink::JsonSink;
use crate::tree::{Place, Tree};
use serde_json::Value;
use std::alloc::{AllocError, Global};

/// A bound of a schema: a whole number from -9223372036854775808 to 18446744073709551615.
///
/// An `Int` never equals a `UInt`, also where both are the same number.
#[derive(Clone, Copy, PartialEq, Eq, Debug)]
pub enum Number {
    /// A number that fits an `isize`; every number read that is an `i64` is one.
    Int(isize),
    /// A number that fits a `usize`; a number is read as one from 9223372036854775808 on.
    UInt(usize),
}

/// A whole number.
#[tactic(auto, using(crate::proofs::Numerals::by_numeral, crate::proofs::ByKind::by_kind))]
impl Tree for Number {
    ghost is_of_kind = { number_of_kind };

    fn read_plain(
        _alloc: Global,
        tree: &Value,
        _readings: &mut Readings,
    ) -> Result<Number, ReadFault> {
        if let Some(number) = tree.as_i64() {
            return Ok(Number::Int(number as isize));
        }
        match tree.as_u64() {
            Some(number) => Ok(Number::UInt(number as usize)),
            None => Err(ReadFault::Kind("Number")),
        }
    }

    fn try_clone(&self, _alloc: Global) -> Result<Number, AllocError> {
        Ok(*self)
    }
}

impl Place for Number {
    fn is_schema() -> bool {
        false
    }
}

impl Documented for Number {
    ghost kind = { numeral };

    ghost doc = { number_doc };
}

/// A whole number.
#[tactic(auto, using(crate::proofs::Sending::by_sending))]
impl Emit for Number {
    fn emit<S: JsonSink>(&self, out: &mut S) -> Result<(), AllocError> {
        match self {
            Number::Int(number) => out.i64(*number as i64),
            Number::UInt(number) => out.u64(*number as u64),
        }
    }
}

impl From<i8> for Number {
    ghost from_gives = { λ number made. made ≡ Int number };

    fn from(number: i8) -> Number {
        Number::Int(number as isize)
    }
}

impl From<i16> for Number {
    ghost from_gives = { λ number made. made ≡ Int number };

    fn from(number: i16) -> Number {
        Number::Int(number as isize)
    }
}

impl From<i32> for Number {
    ghost from_gives = { λ number made. made ≡ Int number };

    fn from(number: i32) -> Number {
        Number::Int(number as isize)
    }
}

impl From<i64> for Number {
    ghost from_gives = { λ number made. made ≡ Int number };

    fn from(number: i64) -> Number {
        Number::Int(number as isize)
    }
}

impl From<isize> for Number {
    ghost from_gives = { λ number made. made ≡ Int number };

    fn from(number: isize) -> Number {
        Number::Int(number)
    }
}

impl From<u8> for Number {
    ghost from_gives = { λ number made. made ≡ UInt number };

    fn from(number: u8) -> Number {
        Number::UInt(number as usize)
    }
}

impl From<u16> for Number {
    ghost from_gives = { λ number made. made ≡ UInt number };

    fn from(number: u16) -> Number {
        Number::UInt(number as usize)
    }
}

impl From<u32> for Number {
    ghost from_gives = { λ number made. made ≡ UInt number };

    fn from(number: u32) -> Number {
        Number::UInt(number as usize)
    }
}

impl From<u64> for Number {
    ghost from_gives = { λ number made. made ≡ UInt number };

    fn from(number: u64) -> Number {
        Number::UInt(number as usize)
    }
}

impl From<usize> for Number {
    ghost from_gives = { λ number made. made ≡ UInt number };

    fn from(number: usize) -> Number {
        Number::UInt(number)
    }
}
