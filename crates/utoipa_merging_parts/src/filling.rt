//! Maps side by side that are filled, all of them or none.
ghost use Rattle.std.specs.Prelude.{◌≡◌, ◌∷◌, [], List, IfOk, OnErr, OnOk};
ghost use Rattle.std.specs.List.{AllByRecursion};
ghost use Rattle.utoipa_base.specs.Docs.{Doc};
ghost use Rattle.utoipa_base.specs.Views.{map_of_docs};
ghost use Rattle.utoipa_merging.specs.Merged.{IsInOrder};
ghost use Rattle.utoipa_merging_parts.specs.Filled.{AreFilled, without};

use crate::maps::{Names, fill_missing, fill_noted, take_back};
use std::alloc::{AllocError, Global};
use std::collections::BTreeMap;
use utoipa_base::Tree;

/// Maps side by side, as `(first, (second, (third, ())))`: each takes from a later one the entries whose names it lacks.
pub trait Filling: Drop {
    /// The names of the entries that were put into each map.
    type Filled: Drop;

    // The maps, as documents.
    ghost docs: { Self → List Doc };

    // The first maps without what was put into them are the second.
    ghost goes_back: { Self.Filled → Self → Self → Type 0 };

    /// Puts into each map the entries of a later one whose names are not there yet, and answers what takes them back. Fails where
    /// memory runs out, and then nothing has changed, and the later maps are given up.
    fn fill(&mut self, alloc: Global, later: Self) -> Result<Self::Filled, AllocError>
        ensures filled { OnOk result (AreFilled (docs self.old) (docs later) (docs self.new)) }
        ensures noted { IfOk result (λ filled. goes_back filled self.new self.old) }
        ensures err { OnErr result (docs self.new ≡ docs self.old) }
        ensures ordered { AllByRecursion IsInOrder (docs self.old) → AllByRecursion IsInOrder (docs self.new) };

    /// Takes back what was put. Takes no memory.
    fn take_back(&mut self, filled: Self::Filled)
        ensures { (before : Self) → goes_back filled self.old before → docs self.new ≡ docs before };

    /// The maps, filled from later ones. Fails where memory runs out, and then all of them are given up, so nothing is noted that
    /// would take back what was put.
    fn with_missing_of(self, alloc: Global, later: Self) -> Result<Self, AllocError>
        ensures filled { IfOk result (λ maps. AreFilled (docs self) (docs later) (docs maps)) }
        ensures ordered { IfOk result (λ maps. AllByRecursion IsInOrder (docs self)
            → AllByRecursion IsInOrder (docs maps)) };
}

impl Filling for () {
    type Filled = ();

    ghost docs = { λ maps. [] };

    ghost goes_back = { λ filled maps before. Unit {0} };

    fn fill(&mut self, _alloc: Global, _later: ()) -> Result<(), AllocError> {
        Ok(())
    }

    fn take_back(&mut self, _filled: ()) {}

    fn with_missing_of(self, _alloc: Global, _later: ()) -> Result<(), AllocError> {
        Ok(())
    }
}

impl<T: Tree, R: Filling> Filling for (BTreeMap<String, T>, R) {
    type Filled = (Names, R::Filled);

    ghost docs = { λ maps. map_of_docs T.doc maps.0 ∷ R.docs maps.1 };

    ghost goes_back = { λ filled maps before. (without filled.0 maps.0.entries ≡ before.0.entries)
        × R.goes_back filled.1 maps.1 before.1 };

    fn fill(
        &mut self,
        alloc: Global,
        later: (BTreeMap<String, T>, R),
    ) -> Result<(Names, R::Filled), AllocError> {
        let (map, others) = later;
        let names = fill_noted(&mut self.0, alloc, map)?;
        match self.1.fill(alloc, others) {
            Ok(filled) => Ok((names, filled)),
            Err(refused) => {
                take_back(&mut self.0, &names);
                Err(refused)
            }
        }
    }

    fn take_back(&mut self, filled: (Names, R::Filled)) {
        let (names, others) = filled;
        take_back(&mut self.0, &names);
        self.1.take_back(others);
    }

    fn with_missing_of(
        self,
        alloc: Global,
        later: (BTreeMap<String, T>, R),
    ) -> Result<(BTreeMap<String, T>, R), AllocError> {
        let (mut map, others) = self;
        let (later_map, later_others) = later;
        fill_missing(&mut map, alloc, later_map)?;
        let others = others.with_missing_of(alloc, later_others)?;
        Ok((map, others))
    }
}

/// The maps, filled from later ones, and what takes that back; as they were where memory ran out, and then the later maps are given up.
pub fn filled<M: Filling>(maps: M, alloc: Global, later: M) -> (M, Result<M::Filled, AllocError>)
    ensures filled { OnOk result.1 (AreFilled (M.docs maps) (M.docs later) (M.docs result.0)) }
    ensures noted { IfOk result.1 (λ filled. M.goes_back filled result.0 maps) }
    ensures err { OnErr result.1 (M.docs result.0 ≡ M.docs maps) }
    ensures ordered { AllByRecursion IsInOrder (M.docs maps) → AllByRecursion IsInOrder (M.docs result.0) }
{
    let mut maps = maps;
    let filled = maps.fill(alloc, later);
    (maps, filled)
}

/// The maps without what was put into them. Takes no memory.
pub fn taken_back<M: Filling>(maps: M, filled: M::Filled) -> M
    ensures { (before : M) → M.goes_back filled maps before → M.docs result ≡ M.docs before }
{
    let mut maps = maps;
    maps.take_back(filled);
    maps
}
