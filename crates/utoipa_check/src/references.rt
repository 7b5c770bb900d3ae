//! All places where a document refers.
ghost use Rattle.std.specs.Prelude.{◌≡◌, ◌++◌, ◌∷◌, List, Some, IfOk, OnOk, length, map};
ghost use Rattle.serde_json.specs.View.{view};
ghost use Rattle.utoipa_check.specs.Mentioned as mentioned;
ghost use Rattle.utoipa_check.specs.Places as places;
ghost use Rattle.utoipa_check.specs.ReferenceViews.{mentions_of, reference_of, references_of, stacked_mentioned};
ghost use Rattle.utoipa_check.specs.Said.{reference_text};
ghost use Rattle.utoipa_check.specs.Views.{stacked, place_of};
ghost use Rattle.utoipa_check.specs.References as specs;
ghost use Rattle.utoipa_tables.specs.Tables.{kind_of};

use crate::layout::Target;
use crate::mention::{Mention, Mentioned};
use crate::misfit::{Outcome, Pointer, Step};
use crate::pointer::ShownPointer;
use crate::referrer::mentions_from;
use crate::referring::{State, Way, resolve};
use crate::shown::Shown;
use crate::task::{Task, push_place};
use crate::walk::{begin_place, end_place};
use serde_json::Value;
use std::alloc::{AllocError, Global};
use std::fmt;
use utoipa_tables::Kind;

/// A place where a document refers, and what has become of the reference.
#[derive(Drop)]
pub struct Reference<'a> {
    /// The place of the text that refers.
    pub pointer: Pointer<'a>,
    /// How the text refers.
    pub way: Way,
    /// The text.
    pub text: &'a str,
    /// What has become of the reference.
    pub state: State,
}

/// Puts what a place mentions in place of what the places inside it mention. Fails where memory runs out.
fn end_mentions<'a>(
    alloc: Global,
    task: &Task<'a>,
    below: usize,
    outcomes: &Vec<Outcome<'a>>,
    found: &mut Vec<Mentioned<'a>>,
) -> Result<(), AllocError>
    requires outcomes { (rest : List places.Outcome) × (stacked outcomes.now.items
        ≡ places.outcomes (places.inner_places (place_of task.now).target (place_of task.now).tree) ++ rest)
        × (below ≡ length rest) }
    requires found { (rest : List mentioned.Mentioned) × (stacked_mentioned found.old.items
        ≡ mentioned.all_mentioned (places.inner_places (place_of task.now).target (place_of task.now).tree) ++ rest)
        × (below ≡ length rest) }
    ensures { OnOk result ((rest : List mentioned.Mentioned)
        → stacked_mentioned found.old.items
        ≡ mentioned.all_mentioned (places.inner_places (place_of task.now).target (place_of task.now).tree) ++ rest
        → below ≡ length rest → stacked_mentioned found.new.items ≡ mentioned.mentioned (place_of task.now) ∷ rest) }
{
    let inner = found.split_off(below)?;
    let mentions = mentions_from(alloc, task.target, task.tree, &outcomes[below..], inner)?;
    found.push(Mentioned {
        step: task.step,
        mentions,
    })?;
    Ok(())
}

/// What a document of a kind mentions. Fails where memory runs out.
fn mentions<'a>(alloc: Global, kind: Kind, tree: &'a Value) -> Result<Vec<Mention<'a>>, AllocError>
    ensures { IfOk result (λ v. mentions_of v.items ≡ specs.mentions (kind_of kind) (view tree.now)) }
{
    let mut outcomes = Vec::new(alloc);
    let mut found = Vec::new(alloc);
    let mut tasks = Vec::new(alloc);
    push_place(&mut tasks, Step::Index(0), Target::Document(kind), tree)?;
    'walk: while let Some(task) = tasks.pop() {
        match task.below {
            None => begin_place(task, outcomes.len(), &mut tasks)?,
            Some(below) => {
                end_mentions(alloc, &task, below, &outcomes, &mut found)?;
                end_place(alloc, task, below, &mut outcomes)?;
            }
        }
    }
    match found.pop() {
        Some(mentioned) => Ok(mentioned.mentions),
        None => Ok(Vec::new(alloc)),
    }
}

/// The places where a document of a kind refers, each with what has become of the reference in the tree. Fails where memory runs out.
///
/// They are the `$ref` of a Reference Object and of a Path Item Object, the texts of a discriminator's mapping and the names of a security
/// requirement, in the order of the member tables. Of a choice the alternative counts that reading takes. What stands where any tree
/// may stand, as an example, refers to nothing, and so does what reading drops. A link's `operationRef` and `operationId` are not looked at.
pub fn references<'a>(
    alloc: Global,
    kind: Kind,
    tree: &'a Value,
) -> Result<Vec<Reference<'a>>, AllocError>
    ensures { IfOk result (λ v. references_of v.items ≡ specs.references (kind_of kind) (view tree.now)) }
{
    let mut found = Vec::new(alloc);
    for mention in mentions(alloc, kind, tree)? {
        let state = resolve(alloc, mention.way, mention.text, tree)?;
        found.push(Reference {
            pointer: mention.pointer,
            way: mention.way,
            text: mention.text,
            state,
        })?;
    }
    Ok(found)
}

/// The JSON Pointer of the place, the text that stands there, and what has become of the reference.
impl fmt::Display for Reference<'_> {
    ghost output = { λ x. Some (reference_text (reference_of x)) };

    fn fmt<W: fmt::Write>(&self, f: &mut fmt::Formatter<W>) -> fmt::Result {
        let pointer = ShownPointer(&self.pointer);
        let text = Shown(self.text);
        let state = self.state;
        write!(f, "{pointer}: `{text}` {state}")
    }
}
