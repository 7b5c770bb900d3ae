//! What has to be met for a request.
ghost use Rattle.std.specs.Prelude.{◌≡◌, ◌↔◌, [], ◌∷◌, IfOk, IsTrue, string_cmp};
ghost use Rattle.std.specs.BTreeMap.{insert_entry};
ghost use Rattle.std.specs.Iterator.{IsFinite};
ghost use Rattle.utoipa_base.specs.Lists.{EachIterator, IsFilledFrom};
ghost use Rattle.utoipa_base.specs.Tables.{security_requirement};

use serde_json::Value;
use std::alloc::{AllocError, Global};
use std::collections::BTreeMap;
use utoipa_base::{Documented, Emit, JsonSink, Place, ReadFault, Readings, Same, Tree, list_from};

/// A Security Requirement Object (OpenAPI 3.1, section 4.8.30): names of security schemes, each with the scopes or roles
/// that it takes. All of the schemes have to be met; where there is none, security is optional.
#[derive(Debug, Drop, PartialEq, Eq)]
pub struct SecurityRequirement {
    pub(crate) value: BTreeMap<String, Vec<String>>,
}

impl SecurityRequirement {
    ghost use Rattle.utoipa_security.specs.Requirement.{requirement_doc, requirement_entries, ScopeNames};

    /// The requirement of one scheme, with all that the iterator gives as its scopes. The iterator has to end. Fails
    /// where memory runs out.
    pub fn new<I: IntoIterator<Item = String>>(
        alloc: Global,
        name: String,
        scopes: I,
    ) -> Result<SecurityRequirement, AllocError>
        requires can { EachIterator I.into_iter_gives I.IntoIter.can_next scopes }
        requires ends { EachIterator I.into_iter_gives (λ it. IsFinite (I.IntoIter.remaining it)) scopes }
        ensures { IfOk result (λ r. (listed : ScopeNames)
            × IsFilledFrom I.into_iter_gives I.IntoIter.next_gives scopes listed
            × (requirement_entries r ≡ (name, listed) ∷ [])) }
    {
        let listed = list_from(alloc, scopes)?;
        let mut value = BTreeMap::new(alloc);
        drop(value.insert(name, listed)?);
        Ok(SecurityRequirement { value })
    }

    /// The requirement of no scheme. Takes no memory.
    pub fn empty(alloc: Global) -> SecurityRequirement
        ensures { requirement_entries result ≡ [] }
    {
        SecurityRequirement {
            value: BTreeMap::new(alloc),
        }
    }

    /// Requires a scheme, with all that the iterator gives as its scopes, in place of those that it had. The iterator has
    /// to end. Fails where memory runs out, and then gives up the requirement.
    pub fn add<I: IntoIterator<Item = String>>(
        mut self,
        alloc: Global,
        name: String,
        scopes: I,
    ) -> Result<SecurityRequirement, AllocError>
        requires can { EachIterator I.into_iter_gives I.IntoIter.can_next scopes }
        requires ends { EachIterator I.into_iter_gives (λ it. IsFinite (I.IntoIter.remaining it)) scopes }
        ensures { IfOk result (λ r. (listed : ScopeNames)
            × IsFilledFrom I.into_iter_gives I.IntoIter.next_gives scopes listed
            × (requirement_entries r ≡ insert_entry string_cmp (requirement_entries self) name listed)) }
    {
        let listed = list_from(alloc, scopes)?;
        drop(self.value.insert(name, listed)?);
        Ok(self)
    }

    /// The scopes or roles that are required of each scheme, by the schemes' names.
    pub fn as_map(&self) -> &BTreeMap<String, Vec<String>>
        ensures { result.now.entries ≡ requirement_entries self.now }
    {
        &self.value
    }

    /// Whether both name the same schemes, with the same scopes in the same order.
    pub fn same(&self, other: &SecurityRequirement) -> bool
        ensures { IsTrue result ↔ (requirement_doc self.now ≡ requirement_doc other.now) }
    {
        self.value.same(&other.value)
    }
}

impl Documented for SecurityRequirement {
    ghost use Rattle.utoipa_security.specs.Requirement.{requirement_doc};

    ghost kind = { security_requirement };

    ghost doc = { requirement_doc };
}

/// An object as a map from the names of schemes.
impl Emit for SecurityRequirement {
    fn emit<S: JsonSink>(&self, out: &mut S) -> Result<(), AllocError> {
        self.value.emit(out)
    }
}

/// An object as a map from the names of schemes.
impl Tree for SecurityRequirement {
    ghost use Rattle.utoipa_security.specs.Requirement.{requirement_of_kind};

    ghost is_of_kind = { requirement_of_kind };

    fn read_plain(
        alloc: Global,
        tree: &Value,
        readings: &mut Readings,
    ) -> Result<SecurityRequirement, ReadFault> {
        let value = <BTreeMap<String, Vec<String>> as Tree>::read_plain(alloc, tree, readings)?;
        Ok(SecurityRequirement { value })
    }

    fn try_clone(&self, alloc: Global) -> Result<SecurityRequirement, AllocError> {
        Ok(SecurityRequirement {
            value: self.value.try_clone(alloc)?,
        })
    }
}

impl Place for SecurityRequirement {
    fn is_schema() -> bool {
        false
    }
}

/// Requirements are compared by the names of their schemes and the scopes of each, in order. They hold texts only, and so no
/// fraction.
#[tactic(auto, using(crate::proofs::Requirement::by_requirements))]
impl Same for SecurityRequirement {
    fn has_fraction(&self) -> bool {
        false
    }

    fn same(&self, other: &SecurityRequirement) -> bool {
        SecurityRequirement::same(self, other)
    }
}
