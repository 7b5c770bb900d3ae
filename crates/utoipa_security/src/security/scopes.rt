//! The scopes of an OAuth flow.
ghost use Rattle.std.specs.Prelude.{◌≡◌, [], ◌∷◌, IfOk};
ghost use Rattle.std.specs.Iterator.{IsFinite};
ghost use Rattle.utoipa_base.specs.Kinds.{named, scopes_object, text, map_of, required};
ghost use Rattle.utoipa_base.specs.Lists.{EachIterator, GivesAll};
ghost use Rattle.utoipa_base.specs.Tables.{row};
ghost use Rattle.utoipa_security.specs.Scopes.{scopes_member};

use serde_json::Value;
use std::alloc::{AllocError, Global};
use std::collections::BTreeMap;
use utoipa_base::table::RowField;
use utoipa_base::{
    Documented, Emit, EmitRow, JsonSink, PendingExtensions, Place, ReadFault, Readings, Tree,
    emit_required, emit_table, from_fields_alone, read_table_alone, row_names, row_required,
    row_values,
};

// The row of scopes by themselves: mark, member, field.
macro_rules! scopes_rows {
    ($lines:ident!($($arguments:tt)*)) => {
        $lines! {
            $($arguments)*;
            required "scopes" scopes,
        }
    };
}

/// The scopes of an OAuth Flow Object (OpenAPI 3.1, section 4.8.29), each by its name with a description: the member
/// `scopes`.
#[derive(Debug, Drop, PartialEq, Eq)]
pub struct Scopes {
    pub(crate) scopes: BTreeMap<String, String>,
}

impl Scopes {
    ghost use Rattle.utoipa_security.specs.Scopes.{scopes_entries, Descriptions, put_descriptions};

    /// No scopes. Takes no memory.
    pub fn new(alloc: Global) -> Scopes
        ensures { scopes_entries result ≡ [] }
    {
        Scopes {
            scopes: BTreeMap::new(alloc),
        }
    }

    /// One scope with its description. Fails where memory runs out.
    pub fn one(alloc: Global, scope: String, description: String) -> Result<Scopes, AllocError>
        ensures { IfOk result (λ s. scopes_entries s ≡ (scope, description) ∷ []) }
    {
        let mut scopes = BTreeMap::new(alloc);
        drop(scopes.insert(scope, description)?);
        Ok(Scopes { scopes })
    }

    /// The description of each scope, by the scopes' names.
    pub fn as_map(&self) -> &BTreeMap<String, String>
        ensures { result.now.entries ≡ scopes_entries self.now }
    {
        &self.scopes
    }

    /// The scopes with the given names and descriptions. The later of two equal names stays. The iterator has to end.
    /// Fails where memory runs out.
    pub fn from_pairs<I: IntoIterator<Item = (String, String)>>(
        alloc: Global,
        pairs: I,
    ) -> Result<Scopes, AllocError>
        requires can { EachIterator I.into_iter_gives I.IntoIter.can_next pairs }
        requires ends { EachIterator I.into_iter_gives (λ it. IsFinite (I.IntoIter.remaining it)) pairs }
        ensures { IfOk result (λ s. (given : Descriptions)
            × GivesAll I.into_iter_gives I.IntoIter.next_gives pairs given
            × (scopes_entries s ≡ put_descriptions given [])) }
    {
        let mut scopes = BTreeMap::new(alloc);
        for (scope, description) in pairs {
            drop(scopes.insert(scope, description)?);
        }
        Ok(Scopes { scopes })
    }
}

/// Scopes are collected of their names and descriptions, as by [`Scopes::from_pairs`].
impl FromIterator<(String, String)> for Scopes {
    ghost use Rattle.utoipa_security.specs.Scopes.{scopes_entries, put_descriptions};

    type Alloc = Global;

    ghost from_iter_gives = { λ pairs s. scopes_entries s ≡ put_descriptions pairs [] };

    fn from_iter<U: IntoIterator<Item = (String, String)>>(
        alloc: Global,
        iter: U,
    ) -> Result<Scopes, AllocError> {
        Scopes::from_pairs(alloc, iter)
    }
}

impl Documented for Scopes {
    ghost use Rattle.utoipa_security.specs.Scopes.{scopes_doc};

    ghost kind = { named scopes_object };

    ghost doc = { scopes_doc };
}

/// An object with the one member `scopes`.
impl Emit for Scopes {
    fn emit<S: JsonSink>(&self, out: &mut S) -> Result<(), AllocError> {
        let names = scopes_rows!(row_names!());
        let values = scopes_rows!(row_values!(self));
        emit_table(out, names, &values, &None)
    }
}

/// An object with the one member `scopes`.
impl Tree for Scopes {
    ghost use Rattle.utoipa_security.specs.Scopes.{scopes_of_kind};

    ghost is_of_kind = { scopes_of_kind };

    fn read_plain(
        alloc: Global,
        tree: &Value,
        readings: &mut Readings,
    ) -> Result<Scopes, ReadFault> {
        let names = scopes_rows!(row_names!());
        let fields = read_table_alone(alloc, tree, "Scopes", names, readings)?;
        Ok(scopes_rows!(from_fields_alone!(Scopes, fields)))
    }

    fn try_clone(&self, alloc: Global) -> Result<Scopes, AllocError> {
        clone_scopes(alloc, self)
    }
}

impl Place for Scopes {
    fn is_schema() -> bool {
        false
    }
}

/// The scopes of a flow: a required member of it.
#[derive(Drop)]
pub(crate) struct ScopesField(pub(crate) Scopes);

impl RowField for ScopesField {
    ghost line = { λ name. row name required (map_of text) };

    ghost doc = { λ v. scopes_member v.0 };

    fn read(
        alloc: Global,
        tree: &Value,
        name: &'static str,
        readings: &mut Readings,
    ) -> Result<ScopesField, ReadFault> {
        let scopes = row_required(alloc, tree, name, readings)?;
        Ok(ScopesField(Scopes { scopes }))
    }
}

/// The scopes of a flow, to be sent: a required member of it.
#[derive(Clone, Copy)]
pub(crate) struct ScopesValue<'a>(pub(crate) &'a Scopes);

impl<'v> EmitRow for ScopesValue<'v> {
    ghost line = { λ name. row name required (map_of text) };

    ghost doc = { λ v. scopes_member v.0.now };

    fn emit<'a, S: JsonSink>(
        &self,
        out: &mut S,
        name: &str,
        pending: PendingExtensions<'a>,
    ) -> Result<PendingExtensions<'a>, AllocError> {
        emit_required(out, name, &self.0.scopes, pending)
    }
}

/// Equal scopes. Fails where memory runs out.
pub(crate) fn clone_scopes(alloc: Global, scopes: &Scopes) -> Result<Scopes, AllocError>
    ensures { IfOk result (λ copy. scopes_member copy ≡ scopes_member scopes.now) }
{
    Ok(Scopes {
        scopes: scopes.scopes.try_clone(alloc)?,
    })
}
