//! What a command that writes a document answers.
ghost use Rattle.std.specs.Prelude.{◌≡◌, ◌≢◌, ◌++◌, [], true, Ok, Err, IfOk, IfErr, string_bytes};
ghost use Rattle.utoipa_findings.specs.Told.{Tells};

use utoipa_findings::Refusal;

/// What documents are written as, and what is lost of their files by that.
#[derive(Drop)]
pub struct Written {
    /// The document as JSON, and a newline.
    pub text: String,
    /// A line for each thing of a file that does not stand in the text.
    pub lost: String,
}

/// The lines of what is lost. Where nothing may be lost, fails with them if there are any.
pub(crate) fn unless_refused(strict: bool, lost: String) -> Result<String, Refusal>
    ensures ok { IfOk result (λ lines. string_bytes lines ≡ string_bytes lost) }
    ensures kept { IfOk result (λ lines. strict ≡ true → string_bytes lines ≡ []) }
    ensures err { IfErr result (Tells (λ told. (strict ≡ true) × (told ≢ []) × (told ≡ string_bytes lost))) }
{
    if strict && !lost.is_empty() {
        return Err(Refusal::Told(lost));
    }
    Ok(lost)
}

/// The lines of what is lost, with those of what is dropped behind them. Where nothing may be lost, fails with them if there are any; and fails
/// where memory runs out.
pub(crate) fn with_dropped(strict: bool, lost: String, dropped: &str) -> Result<String, Refusal>
    ensures ok { IfOk result (λ lines. string_bytes lines ≡ string_bytes lost ++ dropped.now) }
    ensures kept { IfOk result (λ lines. strict ≡ true → string_bytes lines ≡ []) }
    ensures err { IfErr result
        (Tells (λ told. (strict ≡ true) × (told ≢ []) × (told ≡ string_bytes lost ++ dropped.now))) }
{
    let mut lost = lost;
    lost.push_str(dropped)?;
    unless_refused(strict, lost)
}

/// The text of a document with the lines of what is lost, or why there is no text.
pub(crate) fn with_losses(text: Result<String, Refusal>, lost: String) -> Result<Written, Refusal>
    ensures ok { IfOk result (λ written. (text ≡ Ok written.text) × (written.lost ≡ lost)) }
    ensures err { IfErr result (λ refusal. text ≡ Err refusal) }
{
    match text {
        Ok(text) => Ok(Written { text, lost }),
        Err(refusal) => Err(refusal),
    }
}
