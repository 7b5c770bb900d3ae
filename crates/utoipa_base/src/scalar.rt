//! Trees that hold no other value, read as a text, a flag and a number.
ghost use Rattle.std.specs.Prelude.{◌≡◌, Some, IfOk, IfErr, string_bytes};
ghost use Rattle.serde_json.specs.View.{view};
ghost use Rattle.utoipa_base.specs.Kinds.{text, flag, whole};
ghost use Rattle.utoipa_base.specs.Docs.{text_doc, flag_doc, whole_doc};
ghost use Rattle.utoipa_base.specs.Faults.{Refuses};
ghost use Rattle.utoipa_base.specs.Reading.{read};

use crate::fault::ReadFault;
use serde_json::Value;
use std::alloc::Global;

/// A text.
#[tactic(auto, using(crate::proofs::ByKind::by_kind))]
pub(crate) fn read_text(alloc: Global, tree: &Value) -> Result<String, ReadFault>
    ensures ok { IfOk result (λ s. read text (view tree.now) ≡ Some (text_doc (string_bytes s))) }
    ensures err { IfErr result (Refuses (read text (view tree.now))) }
{
    match tree.as_str() {
        Some(found) => Ok(String::from_str(alloc, found)?),
        None => Err(ReadFault::Kind("text")),
    }
}

/// True or false.
#[tactic(auto, using(crate::proofs::ByKind::by_kind))]
pub(crate) fn read_flag(tree: &Value) -> Result<bool, ReadFault>
    ensures ok { IfOk result (λ b. read flag (view tree.now) ≡ Some (flag_doc b)) }
    ensures err { IfErr result (Refuses (read flag (view tree.now))) }
{
    tree.as_bool().ok_or(ReadFault::Kind("bool"))
}

/// A whole number from 0 to 18446744073709551615.
#[tactic(auto, using(crate::proofs::ByKind::by_kind))]
pub(crate) fn read_whole(tree: &Value) -> Result<usize, ReadFault>
    ensures ok { IfOk result (λ n. read whole (view tree.now) ≡ Some (whole_doc n)) }
    ensures err { IfErr result (Refuses (read whole (view tree.now))) }
{
    match tree.as_u64() {
        Some(number) => Ok(number as usize),
        None => Err(ReadFault::Kind("whole number")),
    }
}
