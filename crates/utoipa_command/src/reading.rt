//! Reading all of the input.
ghost use Rattle.std.specs.Prelude.{◌≡◌, ◌≢◌, ◌⊎◌, true, IfOk, OnOk, IfErr, IfSome};
ghost use Rattle.std.specs.Io.KnownBytes.{IsAtEnd};

use crate::refusal::Refusal;
use crate::source::Source;
use std::alloc::Global;

/// All that the reader gives, to its end. Fails with `Read` at the first fault of the reader, an interruption too, and with
/// `Memory` where memory runs out.
pub fn read_all<R: Source>(alloc: Global, input: &mut R) -> Result<Vec<u8>, Refusal>
    ensures text { IfOk result (λ text. IfSome (R.remaining input.old) (λ bytes. text.items ≡ bytes)) }
    ensures end { OnOk result (IsAtEnd (R.remaining input.new)) }
    ensures err { IfErr result (λ w. (w ≡ Refusal.Memory) ⊎ (w ≡ Refusal.Read)) }
    ensures failed { IfErr result (λ w. w ≡ Refusal.Read → R.may_have_failed input.new ≡ true) }

    // A fault of the reader is never passed over.
    ensures all_read { OnOk result (R.may_have_failed input.new ≡ R.may_have_failed input.old) }
    ensures read_on_refusal { IfErr result (λ w. w ≢ Refusal.Read
        → R.may_have_failed input.new ≡ R.may_have_failed input.old) }
{
    let mut text = Vec::new(alloc);
    let mut chunk = [0u8; 4096];
    for _ in 0..u64::MAX {
        match input.next_bytes(&mut chunk) {
            Ok(0) => return Ok(text),
            Ok(count) => {
                if text.extend_from_slice(&chunk[..count]).is_err() {
                    return Err(Refusal::Memory);
                }
            }
            Err(_) => return Err(Refusal::Read),
        }
    }
    // No text is so long: a vector is full long before.
    Err(Refusal::Memory)
}
