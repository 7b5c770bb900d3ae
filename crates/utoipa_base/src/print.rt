//! Numbers printed as JSON.
ghost use Rattle.std.specs.Prelude.{[], ◌∷◌, OnOk};
ghost use Rattle.serde_json.specs.View.{number_view};
ghost use Rattle.utoipa_base.specs.Events.{number};
ghost use Rattle.utoipa_base.specs.Sent.{AddsTokens};

use json::Writer;
use serde_json::Number;
use std::alloc::AllocError;

pub(crate) fn print_number(value: &Number, out: &mut Writer) -> Result<(), AllocError>
    ensures { OnOk result (AddsTokens out.old (number (number_view value.now) ∷ []) out.new) }
{
    if let Some(unsigned) = value.as_u64() {
        return out.u64(unsigned);
    }
    if let Some(signed) = value.as_i64() {
        return out.i64(signed);
    }
    let fraction = value.as_f64().unwrap_or(0.0);
    if fraction.is_finite() {
        out.float_with_plus(fraction)
    } else {
        out.null()
    }
}
