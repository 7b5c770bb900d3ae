//! A place of a tree where a document refers.
ghost use Rattle.std.specs.Prelude.{◌≡◌, ◌++◌, IfOk, OnOk, codes, option_map};
ghost use Rattle.serde_json.specs.Find.{get};
ghost use Rattle.serde_json.specs.View.{view, members_view};
ghost use Rattle.utoipa_check.specs.Mentioned.{joined};
ghost use Rattle.utoipa_check.specs.Places.{members_at};
ghost use Rattle.utoipa_check.specs.ReferenceViews.{way_of, mentions_of, mentioned_of, stacked_mentioned};
ghost use Rattle.utoipa_check.specs.References as specs;
ghost use Rattle.utoipa_check.specs.Views.{step_of};

use crate::misfit::{Pointer, Step};
use crate::referring::Way;
use serde_json::{Map, Value};
use std::alloc::{AllocError, Global};

/// A place of a tree where a document refers, and how the text that stands there refers.
#[derive(Drop)]
pub(crate) struct Mention<'a> {
    /// The place.
    pub(crate) pointer: Pointer<'a>,
    /// How the text refers.
    pub(crate) way: Way,
    /// The text.
    pub(crate) text: &'a str,
}

/// What was mentioned in a tree inside another.
#[derive(Drop)]
pub(crate) struct Mentioned<'a> {
    /// The step to it.
    pub(crate) step: Step<'a>,
    /// What was mentioned in it.
    pub(crate) mentions: Vec<Mention<'a>>,
}

/// Adds a text behind a step. Fails where memory runs out.
pub(crate) fn put_mention<'a>(
    alloc: Global,
    step: Step<'a>,
    way: Way,
    text: &'a str,
    found: &mut Vec<Mention<'a>>,
) -> Result<(), AllocError>
    ensures { OnOk result (mentions_of found.new.items
        ≡ mentions_of found.old.items ++ specs.mention (step_of step.entry) (way_of way) text.now) }
{
    let mut steps = Vec::new(alloc);
    steps.push(step)?;
    found.push(Mention {
        pointer: Pointer { steps },
        way,
        text,
    })?;
    Ok(())
}

/// Adds a member that refers if it is a text. Fails where memory runs out.
pub(crate) fn put_text<'a>(
    alloc: Global,
    name: &'a str,
    way: Way,
    member: &'a Value,
    found: &mut Vec<Mention<'a>>,
) -> Result<(), AllocError>
    ensures { OnOk result (mentions_of found.new.items
        ≡ mentions_of found.old.items ++ specs.text_mention_of name.now (way_of way) (view member.now)) }
{
    match member.as_str() {
        Some(text) => put_mention(alloc, Step::Name(name), way, text, found),
        None => Ok(()),
    }
}

/// Adds the mentions of a tree, by the places of the tree that it stands in. Fails where memory runs out.
pub(crate) fn put_mentions<'a>(
    step: Step<'a>,
    inner: Vec<Mention<'a>>,
    found: &mut Vec<Mention<'a>>,
) -> Result<(), AllocError>
    ensures { OnOk result (mentions_of found.new.items
        ≡ mentions_of found.old.items ++ specs.under (step_of step.entry) (mentions_of inner.entry.items)) }
{
    for mut mention in inner {
        mention.pointer.steps.push(step)?;
        found.push(mention)?;
    }
    Ok(())
}

/// All that was mentioned behind some steps, the last of which comes first. Fails where memory runs out.
pub(crate) fn join_mentions<'a>(
    alloc: Global,
    inner: Vec<Mentioned<'a>>,
) -> Result<Vec<Mention<'a>>, AllocError>
    ensures { IfOk result (λ v. mentions_of v.items ≡ joined (stacked_mentioned inner.entry.items)) }
{
    let mut found = Vec::new(alloc);
    let mut left = inner;
    'join: while let Some(mentioned) = left.pop() {
        put_mentions(mentioned.step, mentioned.mentions, &mut found)?;
    }
    Ok(found)
}

/// The names of a security requirement (Security Requirement Object: OpenAPI 3.1, section 4.8.30). Fails where memory runs out.
pub(crate) fn requirement_mentions<'a>(
    alloc: Global,
    members: &'a Map<String, Value>,
) -> Result<Vec<Mention<'a>>, AllocError>
    ensures { IfOk result (λ v. mentions_of v.items ≡ specs.requirement_mentions (members_view members.now.entries)) }
{
    let mut found = Vec::new(alloc);
    for (name, _member) in members.iter() {
        let name = name.as_str();
        put_mention(alloc, Step::Name(name), Way::Requirement, name, &mut found)?;
    }
    Ok(found)
}

/// The texts of a mapping. Fails where memory runs out.
fn mapping_texts<'a>(
    alloc: Global,
    members: &'a Map<String, Value>,
) -> Result<Vec<Mention<'a>>, AllocError>
    ensures { IfOk result (λ v. mentions_of v.items ≡ specs.mapping_texts (members_view members.now.entries)) }
{
    let mut found = Vec::new(alloc);
    for (name, member) in members.iter() {
        put_text(alloc, name.as_str(), Way::Mapping, member, &mut found)?;
    }
    Ok(found)
}

/// The texts of a discriminator's mapping (Discriminator Object: section 4.8.25). Fails where memory runs out.
pub(crate) fn mapping_mentions<'a>(
    alloc: Global,
    tree: &'a Value,
) -> Result<Vec<Mention<'a>>, AllocError>
    ensures { IfOk result (λ v. mentions_of v.items ≡ specs.mapping_mentions (get (codes "mapping") (view tree.now))) }
{
    let mut found = Vec::new(alloc);
    if let Some(Value::Object(members)) = tree.get("mapping") {
        let texts = mapping_texts(alloc, members)?;
        put_mentions(Step::Name("mapping"), texts, &mut found)?;
    }
    Ok(found)
}

/// The member `$ref` of an object, if it is a text (Reference Object: section 4.8.23; Path Item Object: section 4.8.9). Fails where
/// memory runs out.
pub(crate) fn own_mention<'a>(
    alloc: Global,
    tree: &'a Value,
) -> Result<Vec<Mention<'a>>, AllocError>
    ensures { IfOk result (λ v. mentions_of v.items ≡ specs.own_mention (members_at (view tree.now))) }
{
    let mut found = Vec::new(alloc);
    if let Some(member) = tree.get("$ref") {
        put_text(alloc, "$ref", Way::Reference, member, &mut found)?;
    }
    Ok(found)
}
