//! What operations of a document and of the merged one have from above them.
ghost use Rattle.std.specs.Prelude.{◌≡◌};
ghost use Rattle.std.specs.Option.{unwrap_or};
ghost use Rattle.serde_json.specs.Find.{get};
ghost use Rattle.serde_json.specs.View.{view};
ghost use Rattle.utoipa_meaning.specs.Views.{IsCompared};

use serde_json::Value;
use utoipa_conflicts::is_same;

/// What is inherited where nothing is said, in a document and in the merged one.
#[derive(Clone, Copy, Drop)]
pub(crate) struct Inherited<'a> {
    /// In the operation's own document.
    pub(crate) own: &'a Value,
    /// In the merged document.
    pub(crate) merged: &'a Value,
    /// Whether both are the same. It is noted, so that they are not compared once more for each operation.
    pub(crate) same: bool,
}

/// Two trees, compared.
pub(crate) fn compared<'a>(own: &'a Value, merged: &'a Value) -> Inherited<'a>
    ensures compared { IsCompared result }
    ensures own { view result.own.now ≡ view own.now }
    ensures merged { view result.merged.now ≡ view merged.now }
{
    let same = is_same(own, merged);
    Inherited { own, merged, same }
}

/// What two trees have under a name, and where one has nothing, what is inherited there.
pub(crate) fn inherit<'a>(
    name: &str,
    own: &'a Value,
    merged: &'a Value,
    above: Inherited<'a>,
) -> Inherited<'a>
    requires { IsCompared above }
    ensures compared { IsCompared result }
    ensures own { view result.own.now ≡ unwrap_or (get name.now (view own.now)) (view above.entry.own.now) }
    ensures merged { view result.merged.now ≡ unwrap_or (get name.now (view merged.now)) (view above.entry.merged.now) }
{
    match own.get(name) {
        Some(own) => match merged.get(name) {
            Some(merged) => compared(own, merged),
            None => compared(own, above.merged),
        },
        None => match merged.get(name) {
            Some(merged) => compared(above.own, merged),
            None => above,
        },
    }
}
