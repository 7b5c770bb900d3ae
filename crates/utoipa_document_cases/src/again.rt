//! Values that are changed by a call that may be refused memory, and is then made once more.

use serde_json::Value;
use std::alloc::{AllocError, Global};
use std::collections::BTreeMap;
use utoipa::openapi::security::SecurityScheme;
use utoipa_base::{RefOr, Tree};
use utoipa_case_kit::{printed, refused, two_trees};
use utoipa_components::Components;
use utoipa_paths::Paths;

/// A change of a value of a type, which can be made more than once.
trait Change: Drop {
    /// The type.
    type Changed: Tree;

    /// Changes the value. Fails where memory runs out, and then nothing has changed.
    fn change(&self, alloc: Global, value: &mut Self::Changed) -> Result<(), AllocError>;
}

/// A security scheme, or a reference to one, is put under a name.
#[derive(Drop)]
struct PutScheme<'a> {
    name: &'a str,
    scheme: RefOr<SecurityScheme>,
}

impl<'a> Change for PutScheme<'a> {
    type Changed = Components;

    fn change(&self, alloc: Global, components: &mut Components) -> Result<(), AllocError> {
        let name = String::from_str(alloc, self.name)?;
        components.add_security_scheme(name, self.scheme.try_clone(alloc)?)
    }
}

/// Each of some security schemes is put under its name.
#[derive(Drop)]
struct PutSchemes {
    schemes: BTreeMap<String, RefOr<SecurityScheme>>,
}

impl Change for PutSchemes {
    type Changed = Components;

    fn change(&self, alloc: Global, components: &mut Components) -> Result<(), AllocError> {
        let schemes = self.schemes.try_clone(alloc)?;
        components.add_security_schemes_from_iter(alloc, schemes.into_iter())
    }
}

/// An extension of paths that have some is set.
#[derive(Drop)]
struct PutExtension<'a> {
    name: &'a str,
    value: Value,
}

impl<'a> Change for PutExtension<'a> {
    type Changed = Paths;

    fn change(&self, alloc: Global, paths: &mut Paths) -> Result<(), AllocError> {
        let name = String::from_str(alloc, self.name)?;
        let value = self.value.clone()?;
        if let Some(extensions) = &mut paths.extensions {
            drop(extensions.insert(name, value)?);
        }
        Ok(())
    }
}

/// The extensions of other paths are taken by paths that have some.
#[derive(Drop)]
struct TakeExtensions {
    other: Paths,
}

impl Change for TakeExtensions {
    type Changed = Paths;

    fn change(&self, alloc: Global, paths: &mut Paths) -> Result<(), AllocError> {
        match (&mut paths.extensions, &self.other.extensions) {
            (Some(own), Some(other)) => own.merge(alloc, other.try_clone(alloc)?),
            _ => Ok(()),
        }
    }
}

/// What the components of the first of two texts, with a tab between them, are written as, once the scheme of the second was put under
/// a name.
pub fn with_scheme(alloc: Global, name: &str, texts: &str) -> Result<String, AllocError> {
    match two_trees(alloc, texts) {
        Ok((tree, scheme)) => match RefOr::from_value(alloc, &scheme) {
            Ok(scheme) => changed(alloc, &tree, &PutScheme { name, scheme }),
            Err(fault) => refused(alloc, &fault),
        },
        Err(lacking) => String::from_str(alloc, lacking),
    }
}

/// The same, once each scheme of the second text's map was put under its name.
pub fn with_schemes(alloc: Global, texts: &str) -> Result<String, AllocError> {
    match two_trees(alloc, texts) {
        Ok((tree, schemes)) => match BTreeMap::from_value(alloc, &schemes) {
            Ok(schemes) => changed(alloc, &tree, &PutSchemes { schemes }),
            Err(fault) => refused(alloc, &fault),
        },
        Err(lacking) => String::from_str(alloc, lacking),
    }
}

/// What the paths of the first text are written as, once their extension of a name was set to the second.
pub fn with_extension(alloc: Global, name: &str, texts: &str) -> Result<String, AllocError> {
    match two_trees(alloc, texts) {
        Ok((tree, value)) => changed(alloc, &tree, &PutExtension { name, value }),
        Err(lacking) => String::from_str(alloc, lacking),
    }
}

/// What the paths of the first text are written as, once they took the extensions of those of the second.
pub fn with_extensions_of(alloc: Global, texts: &str) -> Result<String, AllocError> {
    match two_trees(alloc, texts) {
        Ok((tree, other)) => match Paths::from_value(alloc, &other) {
            Ok(other) => changed(alloc, &tree, &TakeExtensions { other }),
            Err(fault) => refused(alloc, &fault),
        },
        Err(lacking) => String::from_str(alloc, lacking),
    }
}

fn changed<C: Change>(alloc: Global, tree: &Value, change: &C) -> Result<String, AllocError> {
    match C::Changed::from_value(alloc, tree) {
        Ok(value) => changed_value(alloc, value, change),
        Err(fault) => refused(alloc, &fault),
    }
}

// Where the change was refused, as a tool has it of memory, and the value is what it was, it is made once more.
fn changed_value<C: Change>(
    alloc: Global,
    value: C::Changed,
    change: &C,
) -> Result<String, AllocError> {
    let before = printed(alloc, &value)?;
    let mut value = value;
    if change.change(alloc, &mut value).is_err() {
        let after = printed(alloc, &value)?;
        if after.as_str() != before.as_str() {
            return format!(in alloc; "refused, and changed to {after}");
        }
        change.change(alloc, &mut value)?;
    }
    printed(alloc, &value)
}
