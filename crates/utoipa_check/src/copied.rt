//! Misfits once more, where they are wanted in two places.
ghost use Rattle.std.specs.Prelude.{◌≡◌, IfOk};
ghost use Rattle.utoipa_check.specs.Views.{misfits_of, stacked};

use crate::misfit::{Misfit, Outcome, Pointer};
use std::alloc::{AllocError, Global};

/// The same misfits once more. Fails where memory runs out.
fn copied<'a>(alloc: Global, misfits: &Vec<Misfit<'a>>) -> Result<Vec<Misfit<'a>>, AllocError>
    ensures { IfOk result (λ v. misfits_of v.items ≡ misfits_of misfits.now.items) }
{
    let mut found = Vec::new(alloc);
    for misfit in misfits {
        let steps = Vec::from_slice(alloc, misfit.pointer.steps.as_slice())?;
        found.push(Misfit {
            pointer: Pointer { steps },
            cause: misfit.cause,
        })?;
    }
    Ok(found)
}

/// The same outcomes once more. Fails where memory runs out.
pub(crate) fn all_copied<'a>(
    alloc: Global,
    outcomes: &[Outcome<'a>],
) -> Result<Vec<Outcome<'a>>, AllocError>
    ensures { IfOk result (λ v. stacked v.items ≡ stacked outcomes.now) }
{
    let mut all = Vec::new(alloc);
    for outcome in outcomes {
        let misfits = copied(alloc, &outcome.misfits)?;
        all.push(Outcome {
            step: outcome.step,
            misfits,
        })?;
    }
    Ok(all)
}
