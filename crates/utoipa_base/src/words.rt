//! Types whose values are the words of a vocabulary, read from a text and written as it.
ghost use Rattle.std.specs.Prelude.{◌≡◌, ◌↔◌, ℕ, List, None, Some, IfOk, IfErr, OnOk, is_some, true, false, map};
ghost use Rattle.serde_json.specs.Find.{as_str};
ghost use Rattle.serde_json.specs.View.{view};
ghost use Rattle.utoipa_base.specs.Docs.{word_doc};
ghost use Rattle.utoipa_base.specs.Events.{events};
ghost use Rattle.utoipa_base.specs.Faults.{Refuses};
ghost use Rattle.utoipa_base.specs.Kinds.{Vocabulary, word_of};
ghost use Rattle.utoipa_base.specs.Reading.{read};
ghost use Rattle.utoipa_base.specs.Vocabularies.{with_text};
ghost use Rattle.utoipa_base.specs.Words.{words, is_word};
ghost use Rattle.utoipa_base.specs.Writing.{write};

use crate::fault::ReadFault;
use crate::sink::JsonSink;
use serde_json::Value;
use std::alloc::AllocError;

/// A type whose values are the words of a vocabulary, each by its text.
pub trait Word: Drop {
    ghost vocabulary: { Vocabulary };

    // The values, in the order of their words.
    ghost every: { List Self };

    ghost spelling: { Self → List ℕ };

    /// The value whose word the text is, if there is one. A type supplies it; callers use [`Word::from_text`].
    fn lookup(text: &str) -> Option<Self>
        ensures { result ≡ with_text spelling every text.now };

    /// The word, by which the value is written.
    fn as_text(&self) -> &'static str
        ensures { result.now ≡ spelling self.now };

    // The values stand for the words of the vocabulary, in its order.
    ghost are_words: { map spelling every ≡ words vocabulary };

    // No two values have one word.
    ghost found_by_text: { (word : Self) → with_text spelling every (spelling word) ≡ Some word };

    /// The value whose word the text is. There is none exactly where the text is no word of the vocabulary.
    final fn from_text(text: &str) -> Option<Self>
        ensures found { (word : Self) → (result ≡ Some word) ↔ (text.now ≡ spelling word) }
        ensures unknown { (result ≡ None) ↔ (is_word vocabulary text.now ≡ false) }
    {
        Self::lookup(text)
    }
}

/// The value whose word the tree is.
///
/// Fails with `Word` and the name where the tree is a text that is no word, and with `Kind` and the name where it is no text. Takes no
/// memory.
#[tactic(auto, using(crate::proofs::ByWords::by_words))]
pub fn read_word<W: Word>(tree: &Value, name: &'static str) -> Result<W, ReadFault>
    ensures ok { IfOk result (λ word. read (word_of W.vocabulary) (view tree.now)
        ≡ Some (word_doc (W.spelling word))) }
    ensures err { IfErr result (Refuses (read (word_of W.vocabulary) (view tree.now))) }
    ensures no_word { IfErr result (λ e. is_some (as_str (view tree.now)) ≡ true → e ≡ ReadFault.Word name.entry) }
    ensures no_text { IfErr result (λ e. is_some (as_str (view tree.now)) ≡ false → e ≡ ReadFault.Kind name.entry) }
{
    match tree.as_str() {
        Some(text) => W::from_text(text).ok_or(ReadFault::Word(name)),
        None => Err(ReadFault::Kind(name)),
    }
}

/// Sends the word of a value. Fails where the sink does.
#[tactic(auto, using(crate::proofs::Sending::by_sending))]
pub fn emit_word<W: Word, S: JsonSink>(out: &mut S, word: &W) -> Result<(), AllocError>
    ensures { OnOk result (S.adds out.old (events (write (word_doc (W.spelling word.now)))) out.new) }
{
    out.string(word.as_text())
}
