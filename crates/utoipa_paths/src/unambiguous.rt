//! Which paths come back from what they are written as.
ghost use Rattle.utoipa_paths.specs.Paths.{paths_of_kind};

use crate::paths::Paths;
use utoipa_base::{Unambiguous, extensions_are_unambiguous, names_are_no_extensions};

/// Paths are, where besides no path begins with `x-`.
#[tactic(auto, using(utoipa_base::proofs::UnambiguousParts::by_parts))]
impl Unambiguous for Paths {
    ghost of_kind = { paths_of_kind };

    fn is_unambiguous(&self) -> bool {
        self.paths.is_unambiguous()
            && names_are_no_extensions(&self.paths)
            && extensions_are_unambiguous(&self.extensions)
    }
}
