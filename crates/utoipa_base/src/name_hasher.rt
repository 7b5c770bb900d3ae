//! The hasher of the maps that keep the order of their names.
ghost use Rattle.std.specs.Prelude.{◌≡◌, fold};
ghost use Rattle.std.specs.Hash as fed;
ghost use Rattle.std.specs.Hash.DefaultHasher as sip;
ghost use Rattle.std.specs.Map.{keys_of};
ghost use Rattle.utoipa_base.specs.NameHashes.{salt_of_names};

use std::collections::BTreeMap;
use std::hash::{BuildHasher, DefaultHasher, Hash, Hasher};

/// Makes the hashers of an [`OrderedMap`](crate::OrderedMap): each begins with a salt.
///
/// A map that is read takes its salt from all of its names. So who writes a text can't pick names whose hashes fall together: the
/// salt is known once the last name is, and each name that changes changes it.
#[derive(Clone, Copy, Debug, PartialEq, Eq)]
pub struct NameHasher {
    salt: u64,
}

impl NameHasher {
    /// The hasher of maps that a program builds, with salt 0. Under names that a stranger picks, a map is slow: there
    /// [`NameHasher::with_salt`] takes a random salt.
    pub fn new() -> NameHasher
        ensures { result.salt ≡ 0 }
    {
        NameHasher { salt: 0 }
    }

    /// The hasher of this salt.
    pub fn with_salt(salt: u64) -> NameHasher
        ensures { result.salt ≡ salt }
    {
        NameHasher { salt }
    }

    /// The hasher whose salt is the hash of all names of an object or a map, in their order and each with its end.
    pub fn from_names<T>(object: &BTreeMap<String, T>) -> NameHasher
        ensures { result.salt ≡ salt_of_names (keys_of object.now.entries) }
    {
        let mut state = DefaultHasher::new();
        for name in object.keys() {
            name.hash(&mut state);
        }
        NameHasher {
            salt: state.finish(),
        }
    }
}

/// Salt 0.
impl Default for NameHasher {
    ghost is_default = { λ hasher. hasher.salt ≡ 0 };

    fn default() -> NameHasher {
        NameHasher::new()
    }
}

/// SipHash that has taken the salt.
impl BuildHasher for NameHasher {
    type Hasher = DefaultHasher;

    ghost build_hasher = { λ hasher. fold sip.write sip.initial (fed.u64 hasher.salt) };

    fn build_hasher(&self) -> DefaultHasher {
        let mut state = DefaultHasher::new();
        state.write_u64(self.salt);
        state
    }
}
