//! The commands of the program, and a run of one of them.
ghost use Rattle.std.specs.Prelude.{◌≡◌, ◌≢◌, ◌↔◌, map, option_map, string_bytes, true, None, OnOk, IfErr, IfSome};
ghost use Rattle.std.specs.Io.KnownBytes.{IsAtEnd};
ghost use Rattle.utoipa_command.specs.Answers.{IsCause};
ghost use Rattle.utoipa_command.specs.Bytes.{reading, writing};
ghost use Rattle.utoipa_command.specs.Commands.{request_of, request_of_word, request_of_words};
ghost use Rattle.utoipa_command.specs.Messages.{message_of, status_of};
ghost use Rattle.utoipa_command.specs.Runs.{Answers, BreaksOff, IsFault, IsRun, IsServed, IsTold, WritesNothing};
ghost use Rattle.utoipa_command.specs.declared.command.Outcome.{Outcome};

use crate::answer::answer;
use crate::reading::read_all;
use crate::refusal::Refusal;
use crate::sink::Sink;
use crate::source::Source;
use crate::writing::write_whole;
use std::alloc::Global;

/// What the program is asked to do.
#[derive(Clone, Copy, Debug, PartialEq, Eq)]
pub enum Command<'w> {
    /// Reads a server and writes it.
    Server,
    /// Reads a schema, or a reference to one, and writes it.
    Schema,
    /// Reads an OpenAPI document and writes it.
    Document,
    /// Reads a list of OpenAPI documents and writes what they are merged into.
    Merge,
    /// Reads a list of two OpenAPI documents and writes the first with the second nested into it, its paths behind this base.
    Nest(&'w str),
}

impl<'w> Command<'w> {
    /// The command that the words name. A base stays where it is.
    pub fn from_words(words: &'w [String]) -> Option<Command<'w>>
        ensures { option_map request_of result ≡ request_of_words (map string_bytes words.now) }
    {
        match words {
            [] => Some(Command::Server),
            [word] => Command::from_word(word.as_str()),
            [word, base] if word.as_str() == "nest" => Some(Command::Nest(base.as_str())),
            _ => None,
        }
    }

    fn from_word(word: &str) -> Option<Command<'w>>
        ensures { option_map request_of result ≡ request_of_word word.now }
    {
        match word {
            "server" => Some(Command::Server),
            "schema" => Some(Command::Schema),
            "document" => Some(Command::Document),
            "merge" => Some(Command::Merge),
            _ => None,
        }
    }
}

/// How a run ends.
#[derive(Clone, Copy, Debug, PartialEq, Eq)]
pub enum Outcome {
    /// The answer is written.
    Done,
    /// The words are no command.
    Misuse,
    /// There is no answer, or it could not be written.
    Refused(Refusal),
}

impl Outcome {
    /// The exit status.
    pub fn status(self) -> u8
        ensures { result ≡ status_of self }
    {
        match self {
            Outcome::Done => 0,
            Outcome::Misuse => 2,
            Outcome::Refused(_) => 1,
        }
    }

    /// What is said of it: nothing, or a line.
    pub fn message(self) -> &'static str
        ensures { result.now ≡ message_of self }
    {
        match self {
            Outcome::Done => "",
            Outcome::Misuse => "usage: utoipa_doc COMMAND\n",
            Outcome::Refused(refusal) => refusal.line(),
        }
    }
}

// Reads a text, makes its whole answer, and then writes it.
fn serve<R: Source, W: Sink>(
    alloc: Global,
    command: Command,
    input: &mut R,
    out: &mut W,
) -> Result<(), Refusal>
    ensures answered { OnOk result (IfSome (R.remaining input.old)
        (λ bytes. Answers (request_of command.entry) bytes (writing (W.room out.old) (W.may_have_failed out.old) (W.may_have_failed out.new) (W.contents out.old) (W.contents out.new)))) }
    ensures cause { IfErr result (λ w. ¬ IsFault (Outcome.Refused w)
        → IfSome (R.remaining input.old) (λ bytes. IsCause (request_of command.entry) bytes w)) }
    ensures broken { IfErr result (λ w. w ≡ Refusal.Write → IfSome (R.remaining input.old)
        (λ bytes. BreaksOff (request_of command.entry) bytes (writing (W.room out.old) (W.may_have_failed out.old) (W.may_have_failed out.new) (W.contents out.old) (W.contents out.new)))) }
    ensures unwritten { IfErr result (λ w. w ≢ Refusal.Write → out.new ≡ out.old) }
    ensures failed { IfErr result (λ w. w ≡ Refusal.Read → R.may_have_failed input.new ≡ true) }
    ensures all_read { OnOk result (R.may_have_failed input.new ≡ R.may_have_failed input.old) }
    ensures all_written { OnOk result (W.may_have_failed out.new ≡ W.may_have_failed out.old) }
    ensures read_on_refusal { IfErr result (λ w. w ≢ Refusal.Read
        → R.may_have_failed input.new ≡ R.may_have_failed input.old) }
    ensures end { OnOk result (IsAtEnd (R.remaining input.new)) }
    ensures refused_at_end { IfErr result (λ w. w ≢ Refusal.Memory → w ≢ Refusal.Read
        → IsAtEnd (R.remaining input.new)) }
{
    let text = read_all(alloc, input)?;
    let line = answer(alloc, command, text.as_slice())?;
    write_whole(out, line.as_slice())
}

// Does what the words ask, and says how that ended.
fn perform<R: Source, W: Sink>(
    alloc: Global,
    words: &[String],
    input: &mut R,
    out: &mut W,
) -> Outcome
    ensures misuse { (result ≡ Outcome.Misuse) ↔ (request_of_words (map string_bytes words.now) ≡ None) }
    ensures unread { result ≡ Outcome.Misuse → input.new ≡ input.old }
    ensures unwritten { WritesNothing result → out.new ≡ out.old }
    ensures served { IfSome (request_of_words (map string_bytes words.now)) (λ r. IsServed r result
        (reading (R.may_have_failed input.old) (R.may_have_failed input.new) (R.remaining input.old) (R.remaining input.new))
        (writing (W.room out.old) (W.may_have_failed out.old) (W.may_have_failed out.new) (W.contents out.old) (W.contents out.new))) }
{
    let Some(command) = Command::from_words(words) else {
        return Outcome::Misuse;
    };
    match serve(alloc, command, input, out) {
        Ok(()) => Outcome::Done,
        Err(refusal) => Outcome::Refused(refusal),
    }
}

/// Says how a run ended, and gives the exit status.
pub fn report<F: Sink>(outcome: Outcome, fault: &mut F) -> u8
    ensures status { result ≡ status_of outcome }
    ensures told { IsTold outcome (writing (F.room fault.old) (F.may_have_failed fault.old) (F.may_have_failed fault.new) (F.contents fault.old) (F.contents fault.new)) }
    ensures quiet { outcome ≡ Outcome.Done → fault.new ≡ fault.old }
{
    // A fault of the fault writer has nowhere to be told.
    let _ = write_whole(fault, outcome.message().as_bytes());
    outcome.status()
}

/// Runs the command that the words name, and gives the exit status: 0 where the answer is written,
/// 1 where the run is refused, and 2 where the words are no command.
pub fn run<R: Source, W: Sink, F: Sink>(
    alloc: Global,
    words: &[String],
    input: &mut R,
    out: &mut W,
    fault: &mut F,
) -> u8
    // The words are judged first, and other words touch neither the input nor the answer.
    ensures misuse { (result ≡ 2) ↔ (request_of_words (map string_bytes words.now) ≡ None) }
    ensures untouched { result ≡ 2 → (input.new ≡ input.old) × (out.new ≡ out.old) }

    // An answer comes with no word on the fault writer.
    ensures quiet { result ≡ 0 → fault.new ≡ fault.old }

    // How it ended, each outcome exactly where it is due, and told so that the line names it.
    ensures run { (o : Outcome) × (result ≡ status_of o) × (WritesNothing o → out.new ≡ out.old)
        × IsRun (request_of_words (map string_bytes words.now)) o
        (reading (R.may_have_failed input.old) (R.may_have_failed input.new) (R.remaining input.old) (R.remaining input.new))
        (writing (W.room out.old) (W.may_have_failed out.old) (W.may_have_failed out.new) (W.contents out.old) (W.contents out.new))
        (writing (F.room fault.old) (F.may_have_failed fault.old) (F.may_have_failed fault.new) (F.contents fault.old) (F.contents fault.new)) }
{
    report(perform(alloc, words, input, out), fault)
}
