//! A tree that is built of what is sent for it.
ghost use Rattle.std.specs.Prelude.{◌≡◌, [], Some, None, true, option_map, IfOk, OnOk};
ghost use Rattle.serde_json.specs.View.{view, members_view};
ghost use Rattle.utoipa_base.specs.Build.{Builds, builds_none, builds_both, placed, state, state_of, is_above};
ghost use Rattle.utoipa_base.specs.Writing.{write};

use crate::emit::Emit;
use crate::sink::JsonSink;
use serde_json::{Map, Number, Value};
use std::alloc::{AllocError, Global};

/// A builder of trees: a sink that makes the tree that is sent to it.
#[derive(Drop)]
pub struct TreeBuilder {
    pub(crate) alloc: Global,
    pub(crate) open: Vec<Open>,
    pub(crate) whole: Option<Value>,
}

/// An array or an object that is not whole yet; of an object also the name whose value comes next.
#[derive(Drop)]
pub(crate) enum Open {
    Array(Vec<Value>),
    Object(Map<String, Value>, Option<String>),
}

impl TreeBuilder {
    /// A builder that nothing was sent to. Takes no memory.
    pub fn new(alloc: Global) -> TreeBuilder
        ensures { state result ≡ state_of [] None }
    {
        TreeBuilder {
            alloc,
            open: Vec::new(alloc),
            whole: None,
        }
    }

    /// The tree, if one was sent whole.
    pub fn into_tree(self) -> Option<Value>
        ensures { option_map view result ≡ (state self).whole }
    {
        let TreeBuilder { whole, .. } = self;
        whole
    }

    // Puts a whole tree into the array or object that was begun last. Fails where memory runs out, and where no value may stand
    // there.
    fn place(&mut self, value: Value) -> Result<(), AllocError>
        ensures { OnOk result (placed (view value) (state self.old).frames (state self.old).whole
            ≡ Some (state self.new)) }
    {
        match self.open.pop() {
            None => {
                self.whole = Some(value);
                Ok(())
            }
            Some(Open::Array(mut items)) => {
                items.push(value)?;
                self.open.push(Open::Array(items))?;
                Ok(())
            }
            Some(Open::Object(mut members, name)) => match name {
                Some(name) => {
                    drop(members.insert(name, value)?);
                    self.open.push(Open::Object(members, None))?;
                    Ok(())
                }
                None => Err(AllocError),
            },
        }
    }
}

// Whether a name comes after those of all members, as it does where members are sent in the order of their names.
fn comes_last(members: &Map<String, Value>, name: &str) -> bool
    ensures { result ≡ true → is_above name.now (members_view members.now.entries) ≡ true }
{
    match members.last_key_value() {
        Some((last, _)) => name > last.as_str(),
        None => true,
    }
}

/// What is sent has to be a tree, the members of each object in the order of their names: what may not come next is refused as
/// memory that ran out is.
#[tactic(auto, using(crate::proofs::Building::by_building))]
impl JsonSink for TreeBuilder {
    ghost adds = { Builds };

    fn null(&mut self) -> Result<(), AllocError> {
        self.place(Value::Null)
    }

    fn boolean(&mut self, flag: bool) -> Result<(), AllocError> {
        self.place(Value::Bool(flag))
    }

    fn u64(&mut self, whole: u64) -> Result<(), AllocError> {
        self.place(Value::from(whole))
    }

    fn i64(&mut self, whole: i64) -> Result<(), AllocError> {
        self.place(Value::from(whole))
    }

    fn number(&mut self, value: &Number) -> Result<(), AllocError> {
        self.place(Value::Number(*value))
    }

    fn string(&mut self, text: &str) -> Result<(), AllocError> {
        let value = Value::try_from_str(self.alloc, text)?;
        self.place(value)
    }

    fn begin_array(&mut self) -> Result<(), AllocError> {
        self.open.push(Open::Array(Vec::new(self.alloc)))?;
        Ok(())
    }

    fn end_array(&mut self) -> Result<(), AllocError> {
        let Some(Open::Array(items)) = self.open.pop() else {
            return Err(AllocError);
        };
        self.place(Value::Array(items))
    }

    fn begin_object(&mut self) -> Result<(), AllocError> {
        self.open.push(Open::Object(Map::new(self.alloc), None))?;
        Ok(())
    }

    fn end_object(&mut self) -> Result<(), AllocError> {
        let Some(Open::Object(members, _)) = self.open.pop() else {
            return Err(AllocError);
        };
        self.place(Value::Object(members))
    }

    fn key(&mut self, name: &str) -> Result<(), AllocError> {
        let Some(Open::Object(members, _)) = self.open.pop() else {
            return Err(AllocError);
        };
        if !comes_last(&members, name) {
            return Err(AllocError);
        }
        let copy = String::from_str(self.alloc, name)?;
        self.open.push(Open::Object(members, Some(copy)))?;
        Ok(())
    }

    ghost none = { builds_none };

    ghost both = { builds_both };
}

/// The tree that a value is written as. Fails where memory runs out.
pub fn built_tree<T: Emit>(alloc: Global, value: &T) -> Result<Value, AllocError>
    ensures { IfOk result (λ v. view v ≡ write (T.doc value.now)) }
{
    let mut out = TreeBuilder::new(alloc);
    value.emit(&mut out)?;
    match out.into_tree() {
        Some(tree) => Ok(tree),
        None => Err(AllocError),
    }
}
