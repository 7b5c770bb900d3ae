//! What holds of the responses that types answer, as contracts of functions that do nothing.
ghost use Rattle.std.specs.Prelude.{◌≡◌, ℕ, List, Some, None};
ghost use Rattle.utoipa_base.specs.Docs.{Doc};
ghost use Rattle.utoipa_operation_parts.specs.Traits.{answered_under, last_under, with_later};

use crate::traits::IntoResponses;

/// Where a type answers by a `Result`, the response of `E` stands under each status code that `E` has, and the response of `T` under
/// each other.
pub fn responses_of_err_stand<T: IntoResponses, E: IntoResponses>()
    ensures of_err { (code : List ℕ) (d : Doc) → last_under code E.answered ≡ Some d
        → answered_under code (with_later T.answered E.answered) ≡ Some d }
    ensures of_ok { (code : List ℕ) → last_under code E.answered ≡ None
        → answered_under code (with_later T.answered E.answered) ≡ answered_under code T.answered }
{}
