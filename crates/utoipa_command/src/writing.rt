//! Writing a whole text.
ghost use Rattle.std.specs.Prelude.{◌≡◌, ◌<◌, ◌≤◌, [], length, OnOk, IfErr};
ghost use Rattle.std.specs.Io.KnownBytes.{Appends};
ghost use Rattle.utoipa_command.specs.Bytes.{AppendsPart, AppendsFront};

use crate::refusal::Refusal;
use crate::sink::Sink;

/// Writes the whole text, in as few writes as the writer allows. Fails with `Write` at the first fault, or at a write that
/// takes nothing; then a part of the text has been written.
pub fn write_whole<W: Sink>(out: &mut W, text: &[u8]) -> Result<(), Refusal>
    ensures whole { OnOk result (Appends (W.contents out.old) (W.contents out.new) text.now) }
    ensures err { IfErr result (λ w. (w ≡ Refusal.Write) × (W.room out.old < length text.now)) }
    ensures part { IfErr result (λ _. AppendsPart (W.contents out.old) (W.contents out.new) text.now) }

    // Whether or not it was ended.
    ensures front { AppendsFront (W.contents out.old) (W.contents out.new) text.now }
    ensures fits { length text.now ≤ W.room out.old → Appends (W.contents out.old) (W.contents out.new) text.now }
    ensures nothing { text.now ≡ [] → out.new ≡ out.old }

    // A fault of the writer is never passed over.
    ensures all_written { OnOk result (W.may_have_failed out.new ≡ W.may_have_failed out.old) }
{
    let mut at = 0;
    while at < text.len() {
        match out.take_bytes(&text[at..]) {
            Ok(0) => return Err(Refusal::Write),
            Ok(count) => at += count,
            Err(_) => return Err(Refusal::Write),
        }
    }
    Ok(())
}
