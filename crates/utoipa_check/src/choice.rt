//! The choices that a member's text or a key decides.
ghost use Rattle.std.specs.Prelude.{◌≡◌, IfOk, Some, None, option_map, option_and_then};
ghost use Rattle.serde_json.specs.Find.{get};
ghost use Rattle.serde_json.specs.View.{view};
ghost use Rattle.utoipa_base.specs.Choices as specs;
ghost use Rattle.utoipa_base.specs.Kinds as kinds;
ghost use Rattle.utoipa_base.specs.Rows.{texts};
ghost use Rattle.utoipa_check.specs.Misfits as misfits;
ghost use Rattle.utoipa_check.specs.Places.{chosen_at, members_at};
ghost use Rattle.utoipa_check.specs.Views.{after_choice, chosen_kind};
ghost use Rattle.utoipa_tables.specs.Tables.{kind_of, choices_of, words_of_choices};

use crate::leaf::mismatch;
use crate::misfit::{Cause, Misfit, Step, here, under};
use serde_json::Value;
use std::alloc::{AllocError, Global};
use utoipa_tables::{Choice, Kind};

/// What a member has chosen.
#[derive(Drop)]
pub(crate) enum Choosing<'a> {
    /// An alternative.
    Of(Kind),
    /// Nothing, for these misfits.
    Nothing(Vec<Misfit<'a>>),
}

/// What stands beside a word.
pub(crate) fn chosen(word: &str, choices: &[Choice]) -> Option<Kind>
    ensures { option_map kind_of result ≡ specs.chosen word.now (choices_of choices.now) }
{
    for choice in choices {
        if word == choice.word {
            return Some(choice.kind);
        }
    }
    None
}

/// What the text of a member chooses.
pub(crate) fn chosen_at(tree: &Value, name: &'static str, choices: &[Choice]) -> Option<Kind>
    ensures { option_map kind_of result ≡ chosen_at name.now (choices_of choices.now) (members_at (view tree.now)) }
{
    match tree.get(name) {
        Some(member) => match member.as_str() {
            Some(word) => chosen(word, choices),
            None => None,
        },
        None => None,
    }
}

/// What the text of a member chooses, or why it chooses nothing. Fails where memory runs out.
pub(crate) fn choose<'a>(
    alloc: Global,
    tree: &'a Value,
    name: &'static str,
    choices: &'static [Choice],
    words: &'static [&'static str],
) -> Result<Choosing<'a>, AllocError>
    requires words { texts words.now ≡ words_of_choices (choices_of choices.now) }
    ensures chosen { IfOk result
        (λ c. chosen_kind c ≡ chosen_at name.now (choices_of choices.now) (members_at (view tree.now))) }
    ensures misfits { IfOk result (λ c. (f : kinds.Kind → misfits.Misfits)
        → after_choice f c ≡ misfits.tagged_misfits name.now (choices_of choices.now) f (get name.now (view tree.now))) }
{
    let Some(member) = tree.get(name) else {
        return Ok(Choosing::Nothing(here(alloc, Cause::Absent(name))?));
    };
    let Some(word) = member.as_str() else {
        let found = here(alloc, mismatch(Kind::Text, member))?;
        return Ok(Choosing::Nothing(under(alloc, Step::Name(name), found)?));
    };
    match chosen(word, choices) {
        Some(kind) => Ok(Choosing::Of(kind)),
        None => {
            let found = here(alloc, Cause::UnknownWord(words))?;
            Ok(Choosing::Nothing(under(alloc, Step::Name(name), found)?))
        }
    }
}
