//! The rows of a member table read from the tokens of a text, whose members come in any order.
ghost use Rattle.std.specs.Prelude.{◌≡◌, ◌≤◌, ◌∷◌, [], ◌+◌, ℕ, List, Option, None, Some, length, true, false, option_map, IfOk, IfSome, OnOk, IsTrue, refl};
ghost use Rattle.json.specs.Reads.{token_of};
ghost use Rattle.serde_json.specs.Data.{no_members};
ghost use Rattle.utoipa_base.specs.Docs.{Doc};
ghost use Rattle.utoipa_base.specs.Fields.{field_of};
ghost use Rattle.utoipa_base.specs.FromTokens.{FromTokens};
ghost use Rattle.utoipa_base.specs.OpenRows.{AreHeld, Held, Taken, held_fields, held_schema_count, is_row};
ghost use Rattle.utoipa_base.specs.Rows.{texts};
ghost use Rattle.utoipa_base.specs.Values.{schema_count, docs_schema_count};

use crate::empty::Empty;
use crate::readings::Readings;
use crate::table::{
    DefaultedField, OptionalField, OrNullField, RequiredField, RowField, RowFields,
};
use crate::tree::Tree;
use crate::unread::Unread;
use json::{Reader, Token};
use std::alloc::Global;

/// What is read at one row of a member table, also from tokens. A trait of its own: a row that is read from a tree needs no more.
pub trait OpenField: RowField {
    /// The row's field, of the member that begins with the token `first` and goes on with those that the reader has. Fails as
    /// [`Tree::from_tokens`] does.
    fn from_tokens(
        alloc: Global,
        first: Token<'_>,
        reader: &mut Reader<'_>,
        depth: usize,
        readings: &mut Readings,
    ) -> Result<Self, Unread>
        ensures read { IfOk result (λ v. (name : List ℕ)
            → FromTokens (λ t. field_of (Self.line name).mark (Self.line name).kind (Some t)) Self.doc v
            depth (token_of first.entry ∷ reader.old) reader.new readings.old readings.new) }
        ensures left { OnOk result (length reader.new ≤ length reader.old) };

    /// The row's field where there is no member: none where one is asked for.
    fn absent(alloc: Global) -> Option<Self>
        ensures value { IfSome result (λ v. (name : List ℕ)
            → field_of (Self.line name).mark (Self.line name).kind None ≡ Some (Self.doc v)) }
        ensures no_schema { IfSome result (λ v. schema_count (Self.doc v) ≡ 0) };

    // The row has the name that it is given.
    ghost is_named: { (name : List ℕ) → (Self.RowField.line name).name ≡ name };
}

#[tactic(auto, using(crate::proofs::Places::places))]
impl<T: Tree> OpenField for RequiredField<T> {
    ghost is_named = { λ _. refl };

    fn from_tokens(
        alloc: Global,
        first: Token<'_>,
        reader: &mut Reader<'_>,
        depth: usize,
        readings: &mut Readings,
    ) -> Result<RequiredField<T>, Unread> {
        let value = T::from_tokens(alloc, first, reader, depth, readings)?;
        Ok(RequiredField(value))
    }

    fn absent(_alloc: Global) -> Option<RequiredField<T>> {
        None
    }
}

#[tactic(auto, using(crate::proofs::Places::places))]
impl<T: Tree> OpenField for OptionalField<T> {
    ghost is_named = { λ _. refl };

    fn from_tokens(
        alloc: Global,
        first: Token<'_>,
        reader: &mut Reader<'_>,
        depth: usize,
        readings: &mut Readings,
    ) -> Result<OptionalField<T>, Unread> {
        if let Token::Null = first {
            return Ok(OptionalField(None));
        }
        let value = T::from_tokens(alloc, first, reader, depth, readings)?;
        Ok(OptionalField(Some(value)))
    }

    fn absent(_alloc: Global) -> Option<OptionalField<T>> {
        Some(OptionalField(None))
    }
}

#[tactic(auto, using(crate::proofs::Places::places))]
impl<T: Tree> OpenField for OrNullField<T> {
    ghost is_named = { λ _. refl };

    fn from_tokens(
        alloc: Global,
        first: Token<'_>,
        reader: &mut Reader<'_>,
        depth: usize,
        readings: &mut Readings,
    ) -> Result<OrNullField<T>, Unread> {
        if let Token::Null = first {
            return Ok(OrNullField(None));
        }
        let value = T::from_tokens(alloc, first, reader, depth, readings)?;
        Ok(OrNullField(Some(value)))
    }

    fn absent(_alloc: Global) -> Option<OrNullField<T>> {
        Some(OrNullField(None))
    }
}

#[tactic(auto, using(crate::proofs::Places::places))]
impl<T: Empty> OpenField for DefaultedField<T> {
    ghost is_named = { λ _. refl };

    fn from_tokens(
        alloc: Global,
        first: Token<'_>,
        reader: &mut Reader<'_>,
        depth: usize,
        readings: &mut Readings,
    ) -> Result<DefaultedField<T>, Unread> {
        let value = T::from_tokens(alloc, first, reader, depth, readings)?;
        Ok(DefaultedField(value))
    }

    fn absent(alloc: Global) -> Option<DefaultedField<T>> {
        Some(DefaultedField(T::empty(alloc)))
    }
}

/// What has been read at the rows of a member table, while its members come in any order, and what becomes of it: the rows' fields `R`.
pub trait OpenFields<R: RowFields>: Drop {
    ghost held: { Self → Held };

    /// The rows before the first member.
    fn begin() -> Self
        ensures held { (names : List (List ℕ)) → length names ≡ R.count
            → AreHeld (R.rows names) (held result) no_members }
        ensures no_schema { held_schema_count (held result) ≡ 0 };

    /// Reads the member of this name, which begins with the token `first` and goes on with those that the reader has, where it is a
    /// row's, and says whether it is; of another it reads nothing. Fails as [`Tree::from_tokens`] does, and where the row's member
    /// has come before.
    fn take(
        &mut self,
        alloc: Global,
        names: &[&'static str],
        name: &str,
        first: Token<'_>,
        reader: &mut Reader<'_>,
        depth: usize,
        readings: &mut Readings,
    ) -> Result<bool, Unread>
        requires { length names.now ≡ R.count }
        ensures taken { IfOk result (λ found. IsTrue found
            → Taken (R.rows (texts names.now)) name.now (held self.old) (held self.new)
            depth (token_of first.entry ∷ reader.old) reader.new readings.old readings.new) }
        ensures other { IfOk result (λ found. found ≡ false → (is_row name.now (R.rows (texts names.now)) ≡ false)
            × (self.new ≡ self.old) × (reader.new ≡ reader.old) × (readings.new ≡ readings.old)) }
        ensures left { OnOk result (length reader.new ≤ length reader.old) };

    /// The rows' fields when the last member has come. Fails where the member of a row that asks for one has not come.
    fn close(self, alloc: Global) -> Result<R, Unread>
        ensures fields { IfOk result (λ v. (names : List (List ℕ)) → length names ≡ R.count
            → held_fields (R.rows names) (held self) ≡ Some (R.docs v)) }
        ensures schemas { IfOk result (λ v. docs_schema_count (R.docs v) ≤ held_schema_count (held self)) };
}

#[tactic(auto, using(crate::proofs::RowLists::by_row_list))]
impl OpenFields<()> for () {
    ghost held = { λ _. [] };

    fn begin() {}

    fn take(
        &mut self,
        _alloc: Global,
        _names: &[&'static str],
        _name: &str,
        _first: Token<'_>,
        _reader: &mut Reader<'_>,
        _depth: usize,
        _readings: &mut Readings,
    ) -> Result<bool, Unread> {
        Ok(false)
    }

    fn close(self, _alloc: Global) -> Result<(), Unread> {
        Ok(())
    }
}

#[tactic(auto, using(crate::proofs::RowLists::by_row_list))]
impl<H: OpenField, R: RowFields, S: OpenFields<R>> OpenFields<(H, R)> for (Option<H>, S) {
    ghost held = { λ v. option_map H.doc v.0 ∷ S.held v.1 };

    fn begin() -> (Option<H>, S) {
        (None, S::begin())
    }

    fn take(
        &mut self,
        alloc: Global,
        names: &[&'static str],
        name: &str,
        first: Token<'_>,
        reader: &mut Reader<'_>,
        depth: usize,
        readings: &mut Readings,
    ) -> Result<bool, Unread> {
        if name != names[0] {
            return self
                .1
                .take(alloc, &names[1..], name, first, reader, depth, readings);
        }
        if self.0.is_some() {
            return Err(Unread::AsTree);
        }
        let field = H::from_tokens(alloc, first, reader, depth, readings)?;
        self.0 = Some(field);
        Ok(true)
    }

    fn close(self, alloc: Global) -> Result<(H, R), Unread> {
        let (held, others) = self;
        let first = match held {
            Some(field) => field,
            None => H::absent(alloc).ok_or(Unread::AsTree)?,
        };
        let rest = others.close(alloc)?;
        Ok((first, rest))
    }
}
